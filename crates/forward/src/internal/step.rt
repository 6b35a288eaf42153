ghost use Rattle.std.specs.Prelude.{◌≡◌, true, ◌+◌, ◌*◌, ◌<◌, length, ◌≤ℤ◌};
ghost use Rattle.interval.specs.Interval.{in_range, acceptable};
ghost use Rattle.inputs.specs.Code.{Sound};
ghost use Rattle.forward.specs.Forward.{reduced};
ghost use Rattle.forward.specs.Code.{Placed};

use inputs::internal::{read, write};
use interval::Interval;
use interval::internal::difference;
use interval::internal::product::product;
use outcome::Refusal;

#[tactic(auto, unfolding(interval::specs::Interval::lowest, interval::specs::Interval::highest), using(crate::proofs::Value::ranged_above, crate::proofs::Value::ranged_below))]
// Both ends are in the range. They are in sequence, so that two of in_range's four tests are enough in the innermost loop.
fn is_in_range(v: Interval) -> bool
    requires { v.lo ≤ℤ v.hi }
    ensures { result ≡ in_range v }
{
    Interval::LOWEST <= v.lo && v.hi <= Interval::HIGHEST
}

// v at position p, if it is in the range; else 6 with this row.
pub fn place(t: &mut [i64], p: usize, v: Interval, row: usize) -> Result<(), Refusal>
    requires { Sound t.old × (2 * p + 1 < length t.old) × (v.lo ≤ℤ v.hi) }
    ensures { Placed tt row v p t.old result t.new }
{
    if !is_in_range(v) {
        return Err(Refusal::OutOfRange(row));
    }
    write(t, p, v);
    Ok(())
}

// The interval at p less m times the one at q, in its place, if it is in the range.
pub fn reduce(t: &mut [i64], p: usize, m: Interval, q: usize, row: usize) -> Result<(), Refusal>
    requires sound { Sound t.old × (acceptable m ≡ true) }
    requires p_in_bounds { (2 * p + 1 < length t.old) × (2 * q + 1 < length t.old) }
    ensures { Placed tt row (reduced t.old p m q) p t.old result t.new }
{
    let a = read(t, p);
    let b = read(t, q);
    let v = difference(a, product(m, b));
    place(t, p, v, row)
}
