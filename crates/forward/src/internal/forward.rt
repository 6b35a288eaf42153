ghost use Rattle.std.specs.Prelude.{◌≡◌, true, false, ◌+◌, ◌<◌, length, IfErr};
ghost use Rattle.interval.specs.Interval.{acceptable, contains_zero, quotient};
ghost use Rattle.inputs.specs.Place.{at, cell};
ghost use Rattle.forward.specs.Pivot.{lowest_row};
ghost use Rattle.forward.specs.Forward.{table, reduced, right_side, forward};
ghost use Rattle.forward.specs.Code.{Working, Placed, Ran, Reached};

use crate::internal::pivot::pivot;
use crate::internal::step::{place, reduce};
use inputs::internal::read;
use interval::Interval;
use interval::internal::quotient::quotient;
use outcome::Refusal;

#[tactic(auto, using(crate::proofs::Value::quotient_order, crate::proofs::Index::cell_room))]
// The factor of row i, in the place of a(i,k), if it is in the range.
fn factor(n: usize, k: usize, i: usize, pivot: Interval, t: &mut [i64]) -> Result<Interval, Refusal>
    requires working { Working n t.old × (k < n) × (i < n) }
    requires pivot_value { (acceptable pivot ≡ true) × (contains_zero pivot ≡ false) }
    ensures { let q = quotient (at t.old (cell n i k)) pivot in Placed q (i + 1) q (cell n i k) t.old result t.new }
{
    let p = i * n + k;
    let a = read(t, p);
    let m = quotient(a, pivot);
    place(t, p, m, i + 1)?;
    Ok(m)
}

// a(i,j) − m·a(k,j)
fn entry(n: usize, k: usize, i: usize, j: usize, m: Interval, t: &mut [i64]) -> Result<(), Refusal>
    requires working { Working n t.old × (k < n) × (i < n) × (j < n) }
    requires m_value { acceptable m ≡ true }
    ensures { Placed tt (i + 1) (reduced t.old (cell n i j) m (cell n k j)) (cell n i j) t.old result t.new }
{
    reduce(t, i * n + j, m, k * n + j, i + 1)
}

#[tactic(auto, using(crate::proofs::Forward::right_side_ran, crate::proofs::Step::placed_kept))]
// f(i) − m·f(k)
fn right_side(n: usize, k: usize, i: usize, m: Interval, t: &mut [i64]) -> Result<(), Refusal>
    requires working { Working n t.old × (k < n) × (i < n) }
    requires m_value { acceptable m ≡ true }
    ensures ran { Ran (right_side n k i m t.old) result t.new }
    ensures kept { IfErr result (λ _. t.new ≡ t.old) }
{
    reduce(t, n * n + i, m, n * n + k, i + 1)
}

// The forward part: document 01's loops over k, i and j, left at the first step without a pivot or range failure. Of each step the row
// that it took stands in taken.
pub fn forward(n: usize, t: &mut [i64], taken: &mut [i64]) -> Result<(), Refusal>
    requires { Working n t.old × (length taken.old ≡ 32) }
    ensures { Reached (forward lowest_row n (table t.old taken.old)) result (table t.new taken.new) }
{
    let mut ending = Ok(());
    // document 01, Which form to use where: left by a label
    'pivots: for k in 0..n {
        let p = match pivot(n, k, t, taken) {
            Ok(p) => p,
            Err(o) => {
                ending = Err(o);
                break 'pivots;
            }
        };
        for i in k + 1..n {
            let m = match factor(n, k, i, p, t) {
                Ok(m) => m,
                Err(o) => {
                    ending = Err(o);
                    break 'pivots;
                }
            };
            for j in k + 1..n {
                if let Err(o) = entry(n, k, i, j, m, t) {
                    ending = Err(o);
                    break 'pivots;
                }
            }
            if let Err(o) = right_side(n, k, i, m, t) {
                ending = Err(o);
                break 'pivots;
            }
        }
    }
    ending
}
