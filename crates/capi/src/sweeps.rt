ghost use Rattle.std.specs.Prelude.{◌≡◌};
ghost use Rattle.inputs.specs.System.{system};
ghost use Rattle.sweep.specs.Calls.{sweep_call, symmetric_call, call};
ghost use Rattle.capi.specs.Flat.{call_of, Counts};

use crate::systems::{KifwalebOutcome, counted};
use sweep::{Swept, sweep, symmetric_sweep};

// The answer of either sweep call.
impl From<Swept> for KifwalebOutcome {
    ghost from_gives = { Counts };

    fn from(s: Swept) -> KifwalebOutcome {
        counted(s.outcome, s.count)
    }
}

// The sweep call.
#[unsafe(no_mangle)]
pub extern "C" fn kifwaleb_sweep(
    n: usize,
    b_matrix: &[i64],
    b: &[i64],
    bounds: &mut [i64],
    allowed: usize,
) -> KifwalebOutcome
    ensures { call_of result bounds.new ≡
        call (system n b_matrix.now b.now) (sweep_call allowed) bounds.old }
{
    sweep(n, b_matrix, b, bounds, allowed).into()
}

// The sweep call there and back.
#[unsafe(no_mangle)]
pub extern "C" fn kifwaleb_symmetric_sweep(
    n: usize,
    b_matrix: &[i64],
    b: &[i64],
    bounds: &mut [i64],
    allowed: usize,
) -> KifwalebOutcome
    ensures { call_of result bounds.new ≡
        call (system n b_matrix.now b.now) (symmetric_call allowed) bounds.old }
{
    symmetric_sweep(n, b_matrix, b, bounds, allowed).into()
}
