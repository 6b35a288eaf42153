#![tactic(auto)]

pub mod internal;

ghost use Rattle.std.specs.Prelude.{◌≡◌};
ghost use Rattle.outcome.specs.Run.{answered};
ghost use Rattle.inputs.specs.System.{system};
ghost use Rattle.start_box.specs.Call.{start_box};

use crate::internal::Balance;
use inputs::internal::tested;
use outcome::Refusal;

// A box that holds every solution of x = B·x + b, without elimination: document 003's start box, in the lent box.
pub fn start_box(n: usize, b_matrix: &[i64], b: &[i64], bounds: &mut [i64]) -> Result<(), Refusal>
    ensures { answered result bounds.new ≡ start_box (system n b_matrix.now b.now) bounds.old }
{
    tested(n, b_matrix, b, bounds.len())?;
    let balance = Balance {
        n,
        matrix: b_matrix,
        right: b,
    };
    balance.begin(bounds)
}
