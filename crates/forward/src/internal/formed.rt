ghost use Rattle.std.specs.Prelude.{◌≡◌, ◌+◌, ◌<◌};
ghost use Rattle.interval.specs.Interval.{exact_difference};
ghost use Rattle.inputs.specs.Place.{at, cell};
ghost use Rattle.forward.specs.Formed.{identity, formed_row, formed_rows};
ghost use Rattle.forward.specs.Code.{Working, Placed, Ran};

use crate::internal::step::place;
use inputs::internal::read;
use interval::Interval;
use interval::internal::difference;
use outcome::Refusal;

#[tactic(auto, using(crate::proofs::Formed::identity_same, crate::proofs::Formed::identity_other))]
// The entry (i, j) of I.
fn identity(i: usize, j: usize) -> Interval
    ensures { result ≡ identity i j }
{
    if i == j {
        Interval::ONE
    } else {
        Interval::ZERO
    }
}

// The entry (i, j) of I − B, if it is in the range.
fn formed_entry(n: usize, i: usize, j: usize, t: &mut [i64]) -> Result<(), Refusal>
    requires { Working n t.old × (i < n) × (j < n) }
    ensures { Placed tt (i + 1) (exact_difference (identity i j) (at t.old (cell n i j))) (cell n i j) t.old result t.new }
{
    let p = i * n + j;
    let b = read(t, p);
    let v = difference(identity(i, j), b);
    place(t, p, v, i + 1)
}

fn formed_row(n: usize, i: usize, t: &mut [i64]) -> Result<(), Refusal>
    requires { Working n t.old × (i < n) }
    ensures { Ran (formed_row n i n 0 t.old) result t.new }
{
    for j in 0..n {
        formed_entry(n, i, j, t)?;
    }
    Ok(())
}

// I − B in the place of B.
pub fn formed_rows(n: usize, t: &mut [i64]) -> Result<(), Refusal>
    requires { Working n t.old }
    ensures { Ran (formed_rows n n 0 t.old) result t.new }
{
    for i in 0..n {
        formed_row(n, i, t)?;
    }
    Ok(())
}
