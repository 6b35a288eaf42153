ghost use Rattle.std.specs.Prelude.{◌≡◌, ◌*◌, length, Ok};
ghost use Rattle.inputs.specs.System.{system, tests};
ghost use Rattle.inputs.specs.Code.{Ended};
ghost use Rattle.rows.specs.Sum.{once};
ghost use Rattle.outcome.specs.Run.{and_then};
ghost use Rattle.forward.specs.Pivot.{lowest_row};
ghost use Rattle.forward.specs.Formed.{formed_rows};
ghost use Rattle.elimination.specs.Call.{copied, solved};
ghost use Rattle.forward.specs.Code.{Working};

use crate::internal::back::back;
use forward::internal::formed::formed_rows;
use forward::internal::forward::forward;
use inputs::internal::copy::{copy_in, copy_out};
use outcome::Refusal;

// Eliminates in the working copy and writes the box at the end.
fn finish(n: usize, t: &mut [i64], bounds: &mut [i64]) -> Result<(), Refusal>
    requires { Working n t.old × (length bounds.old ≡ 2 * n) }
    ensures { Ended (solved lowest_row once n t.old) result bounds.old bounds.new }
{
    // An array of fixed size, since there is no heap.
    let mut taken = [0i64; 32];
    forward(n, t, &mut taken)?;
    back(n, t)?;
    copy_out(bounds, t, 2 * (n * n));
    Ok(())
}

// The calculation over A and f.
pub fn solve(n: usize, a: &[i64], f: &[i64], bounds: &mut [i64]) -> Result<(), Refusal>
    requires { tests (system n a.now f.now) (length bounds.old) ≡ Ok tt }
    ensures { Ended (solved lowest_row once n (copied (system n a.now f.now))) result bounds.old bounds.new }
{
    // An array of fixed size, since there is no heap.
    let mut t = [0i64; 2112];
    copy_in(&mut t, a, f);
    finish(n, &mut t, bounds)
}

// The calculation over B and b, which stand in the working copy.
pub fn solve_formed(n: usize, t: &mut [i64], bounds: &mut [i64]) -> Result<(), Refusal>
    requires { Working n t.old × (length bounds.old ≡ 2 * n) }
    ensures { Ended (and_then (formed_rows n n 0 t.old) (λ t. solved lowest_row once n t)) result bounds.old bounds.new }
{
    formed_rows(n, t)?;
    finish(n, t, bounds)
}

// The calculation over B and b.
pub fn solve_balance(
    n: usize,
    b_matrix: &[i64],
    b: &[i64],
    bounds: &mut [i64],
) -> Result<(), Refusal>
    requires { tests (system n b_matrix.now b.now) (length bounds.old) ≡ Ok tt }
    ensures { Ended (and_then (formed_rows n n 0 (copied (system n b_matrix.now b.now))) (λ t. solved lowest_row once n t))
        result bounds.old bounds.new }
{
    // An array of fixed size, since there is no heap.
    let mut t = [0i64; 2112];
    copy_in(&mut t, b_matrix, b);
    solve_formed(n, &mut t, bounds)
}
