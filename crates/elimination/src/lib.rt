#![tactic(auto)]

pub mod claims;
pub mod internal;

ghost use Rattle.std.specs.Prelude.{◌≡◌};
ghost use Rattle.outcome.specs.Run.{answered};
ghost use Rattle.inputs.specs.System.{system};
ghost use Rattle.elimination.specs.Call.{over_A, over_B};

use crate::internal::solve::{solve, solve_balance};
use inputs::internal::tested;
use outcome::Refusal;

// Eliminates from A and f: bounds on the solutions of A·x = f, in the lent box.
pub fn eliminate(n: usize, a: &[i64], f: &[i64], bounds: &mut [i64]) -> Result<(), Refusal>
    ensures { answered result bounds.new ≡ over_A (system n a.now f.now) bounds.old }
{
    tested(n, a, f, bounds.len())?;
    solve(n, a, f, bounds)
}

// Eliminates from B and b: bounds on the solutions of x = B·x + b, in the lent box. Document 01 has two calls, which callers and C know by name.
pub fn eliminate_balance(
    n: usize,
    b_matrix: &[i64],
    b: &[i64],
    bounds: &mut [i64],
) -> Result<(), Refusal>
    ensures { answered result bounds.new ≡ over_B (system n b_matrix.now b.now) bounds.old }
{
    tested(n, b_matrix, b, bounds.len())?;
    solve_balance(n, b_matrix, b, bounds)
}
