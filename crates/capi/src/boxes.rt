ghost use Rattle.std.specs.Prelude.{◌≡◌};
ghost use Rattle.inputs.specs.System.{system};
ghost use Rattle.start_box.specs.Call.{start_box};
ghost use Rattle.narrower.specs.Choice.{chosen, choice_number};
ghost use Rattle.capi.specs.Flat.{call_of};

use crate::systems::KifwalebOutcome;
use narrower::internal::choose;
use start_box::start_box;

// The start box from B and b.
#[unsafe(no_mangle)]
pub extern "C" fn kifwaleb_start_box(
    n: usize,
    b_matrix: &[i64],
    b: &[i64],
    bounds: &mut [i64],
) -> KifwalebOutcome
    ensures { call_of result bounds.new ≡ start_box (system n b_matrix.now b.now) bounds.old }
{
    start_box(n, b_matrix, b, bounds).into()
}

// Which of two boxes is the narrower one: C cannot be handed a slice back.
#[unsafe(no_mangle)]
pub extern "C" fn kifwaleb_narrower(n: usize, first: &[i64], second: &[i64]) -> u64
    ensures { result ≡ choice_number (chosen n first.now second.now) }
{
    choose(n, first, second).number()
}
