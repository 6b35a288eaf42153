ghost use Rattle.std.specs.Prelude.{◌≡◌, ◌<◌};
ghost use Rattle.rows.specs.Sum.{once};
ghost use Rattle.sweep.specs.Pass.{component};
ghost use Rattle.sweep.specs.Code.{pass, Passed, Narrowed};

use crate::internal::balance::Balance;
use inputs::internal::{read, write};
use interval::Interval;
use interval::internal::{intersection, is_empty, sum};
use outcome::Refusal;

// The sequence in which a pass goes over the components: from the first to the last, or back as well.
#[derive(Clone, Copy)]
pub enum Way {
    There,
    ThereAndBack,
}

// The new component i.
#[inline(always)]
fn component<B: Balance>(balance: &B, i: usize, x: &[i64]) -> Interval
    requires ready { B.is_ready balance.now x.now }
    requires in_bounds { i < (B.system balance.now).size }
    ensures { result ≡ component once (B.system balance.now) x.now i }
{
    let b = read(balance.right(), i);
    let s = balance.row_sum(i, x);
    let old = read(x, i);
    let v = sum(b, s);
    intersection(v, old)
}

// Narrows component i of x: whether that changed an end, or where it found nothing left.
#[inline(always)]
fn narrow<B: Balance>(balance: &B, i: usize, x: &mut [i64]) -> Result<bool, Refusal>
    requires ready { B.is_ready balance.now x.old }
    requires in_bounds { i < (B.system balance.now).size }
    ensures { Narrowed (B.system balance.now) i x.old result x.new }
{
    let v = component(balance, i, x);
    if is_empty(v) {
        return Err(Refusal::Empty(i + 1));
    }
    let old = read(x, i);
    write(x, i, v);
    Ok(old != v)
}

// The same of a whole pass over x; with no way it goes over nothing.
pub fn pass_once<B: Balance>(balance: &B, way: Option<Way>, x: &mut [i64]) -> Result<bool, Refusal>
    requires { B.is_ready balance.now x.old }
    ensures passed { Passed (pass way (B.system balance.now) x.old) (B.system balance.now).size x.old result x.new }
    ensures ready { B.is_ready balance.now x.new }
{
    let Some(way) = way else {
        return Ok(false);
    };
    let n = balance.size();
    let mut changed = false;
    for i in 0..n {
        changed |= narrow(balance, i, x)?;
    }
    match way {
        Way::There => Ok(changed),
        Way::ThereAndBack => {
            for i in (0..n).rev() {
                changed |= narrow(balance, i, x)?;
            }
            Ok(changed)
        }
    }
}
