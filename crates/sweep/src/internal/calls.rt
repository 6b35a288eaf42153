ghost use Rattle.std.specs.Prelude.{◌≡◌, ◌*◌, ◌≤◌, length};
ghost use Rattle.outcome.specs.Run.{returned};
ghost use Rattle.inputs.specs.System.{system};
ghost use Rattle.sweep.specs.Call.{sweeps};
ghost use Rattle.sweep.specs.Code.{pass, Logged, Ran, call_over};

use crate::Swept;
use crate::internal::balance::Balance;
use crate::internal::pass::{Way, pass_once};
use crate::internal::square::Square;
use crate::internal::tests::tested;
use inputs::internal::copy::copy_out;
use outcome::Ending;

// Passes over x until it settles, is found empty, or the sweeps allowed are spent.
fn repeat<B: Balance>(balance: &B, way: Option<Way>, x: &mut [i64], allowed: usize) -> Swept
    requires { B.is_ready balance.now x.old }
    ensures { Logged (sweeps (B.system balance.now).size (pass way (B.system balance.now)) allowed x.old)
        x.old result x.new }
{
    for count in 0..allowed {
        match pass_once(balance, way, x) {
            Ok(true) => {}
            Ok(false) => {
                return Swept {
                    outcome: Ok(Ending::Done),
                    count: count + 1,
                };
            }
            Err(o) => {
                return Swept {
                    outcome: Err(o),
                    count,
                };
            }
        }
    }
    Swept {
        outcome: Ok(Ending::Spent),
        count: allowed,
    }
}

// The passes on a copy, x, of the lent box, which is written back unless it was found empty.
fn tighten<B: Balance>(
    balance: &B,
    way: Option<Way>,
    x: &mut [i64],
    bounds: &mut [i64],
    allowed: usize,
) -> Swept
    requires ready { B.is_ready balance.now bounds.old }
    requires x_len { length x.old ≡ 2 * (B.system balance.now).size }
    ensures { Ran (sweeps (B.system balance.now).size (pass way (B.system balance.now)) allowed bounds.old)
        bounds.old result bounds.new }
{
    copy_out(x, bounds, 0);
    let s = repeat(balance, way, x, allowed);
    if s.outcome.is_ok() {
        copy_out(bounds, x, 0);
    }
    s
}

// The passes, after the tests.
pub fn run<B: Balance>(balance: &B, way: Option<Way>, bounds: &mut [i64], allowed: usize) -> Swept
    requires { B.is_ready balance.now bounds.old }
    ensures { Ran (sweeps (B.system balance.now).size (pass way (B.system balance.now)) allowed bounds.old)
        bounds.old result bounds.new }
{
    // An array of fixed size, since there is no heap.
    let mut x = [0i64; 64];
    tighten(balance, way, &mut x[..2 * balance.size()], bounds, allowed)
}

// The call, with passes there alone, there and back, or over nothing.
pub fn swept(
    n: usize,
    way: Option<Way>,
    matrix: &[i64],
    right: &[i64],
    bounds: &mut [i64],
    allowed: usize,
) -> Swept
    ensures { returned result.outcome result.count bounds.new ≡
        call_over way (system n matrix.now right.now) allowed bounds.old }
{
    match tested(n, matrix, right, bounds, allowed) {
        Ok(()) => run(&Square { n, matrix, right }, way, bounds, allowed),
        Err(o) => Swept {
            outcome: Err(o),
            count: 0,
        },
    }
}
