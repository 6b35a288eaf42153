ghost use Rattle.std.specs.Prelude.{◌≡◌};
ghost use Rattle.inputs.specs.System.{system};
ghost use Rattle.sweep.specs.Call.{allowance, tests};

use inputs::internal::{intervals, sizes};
use outcome::Refusal;

#[tactic(auto, unfolding(crate::specs::Call::allowance, inputs::specs::Tests::need))]
// Test 4, of the sweeps allowed.
pub fn budget(allowed: usize) -> Result<(), Refusal>
    ensures { result ≡ allowance allowed }
{
    if 1 <= allowed && allowed <= 10_000 {
        return Ok(());
    }
    Err(Refusal::Allowed)
}

#[tactic(auto, using(crate::proofs::Tests::tests_sizes, crate::proofs::Tests::tests_allowed, crate::proofs::Tests::tests_matrix, crate::proofs::Tests::tests_right, crate::proofs::Tests::tests_box))]
// The tests before the sweeps.
pub fn tested(
    n: usize,
    matrix: &[i64],
    right: &[i64],
    bounds: &[i64],
    allowed: usize,
) -> Result<(), Refusal>
    ensures { result ≡ tests (system n matrix.now right.now) allowed bounds.now }
{
    sizes(n, matrix, right, bounds.len())?;
    budget(allowed)?;
    intervals(matrix, n * n, 0)?;
    intervals(right, n, n * n)?;
    intervals(bounds, n, n * n + n)
}
