ghost use Rattle.std.specs.Prelude.{◌≡◌, false, ◌<◌, IfErr};
ghost use Rattle.interval.specs.Interval.{contains_zero};
ghost use Rattle.inputs.specs.Place.{at, cell};
ghost use Rattle.rows.specs.Sum.{once};
ghost use Rattle.elimination.specs.Back.{back};
ghost use Rattle.forward.specs.Code.{Working, Pivots, Ran};
ghost use Rattle.elimination.specs.Code.{unknown};

use forward::internal::step::place;
use inputs::internal::read;
use interval::internal::quotient::quotient;
use interval::internal::{difference, in_range};
use outcome::Refusal;
use rows::internal::row_sum;

// x(i), in the place of f(i), if its numerator and it are in the range; else the working copy stays as it was.
fn unknown(n: usize, i: usize, t: &mut [i64]) -> Result<(), Refusal>
    requires { Working n t.old × (i < n) × (contains_zero (at t.old (cell n i i)) ≡ false) }
    ensures ran { Ran (unknown n i t.old) result t.new }
    ensures kept { IfErr result (λ _. t.new ≡ t.old) }
{
    let row = i + 1;
    let p = n * n + i;
    let c = i * n + i;
    let s = row_sum(&*t, c + 1, &*t, p + 1, n - (i + 1));
    let f = read(t, p);
    let v = difference(f, s);
    if !in_range(v) {
        return Err(Refusal::OutOfRange(row));
    }
    let a = read(t, c);
    let w = quotient(v, a);
    place(t, p, w, row)
}

// Back-substitution.
pub fn back(n: usize, t: &mut [i64]) -> Result<(), Refusal>
    requires { Working n t.old × Pivots n t.old }
    ensures { Ran (back once n n t.old) result t.new }
{
    for i in (0..n).rev() {
        unknown(n, i, t)?;
    }
    Ok(())
}
