ghost use Rattle.std.specs.Prelude.{◌≡◌};
ghost use Rattle.outcome.specs.Run.{returned};
ghost use Rattle.inputs.specs.System.{system};
ghost use Rattle.elimination.specs.Call.{over_A, over_B};
ghost use Rattle.capi.specs.Flat.{call_of, Answers};

use elimination::{eliminate, eliminate_balance};
use outcome::{Ending, Outcome, Refusal, number, place};

// A call's answer: document 01's number and place, and a count: of whole sweeps, of the bytes of a sheet, and 0 for an elimination and a start box.
#[repr(C)]
#[derive(Clone, Copy)]
pub struct KifwalebOutcome {
    pub number: u64,
    pub place: u64,
    pub count: u64,
}

pub(crate) fn counted(o: Outcome, count: usize) -> KifwalebOutcome
    ensures { call_of result count ≡ returned o count count }
{
    KifwalebOutcome {
        number: number(o),
        place: place(o) as u64,
        count: count as u64,
    }
}

// The answer of a call without a count.
impl From<Result<(), Refusal>> for KifwalebOutcome {
    ghost from_gives = { Answers };

    fn from(r: Result<(), Refusal>) -> KifwalebOutcome {
        match r {
            Ok(()) => counted(Ok(Ending::Done), 0),
            Err(o) => counted(Err(o), 0),
        }
    }
}

// Elimination from A and f.
#[unsafe(no_mangle)]
pub extern "C" fn kifwaleb_eliminate(
    n: usize,
    a: &[i64],
    f: &[i64],
    bounds: &mut [i64],
) -> KifwalebOutcome
    ensures { call_of result bounds.new ≡ over_A (system n a.now f.now) bounds.old }
{
    eliminate(n, a, f, bounds).into()
}

// Elimination from B and b.
#[unsafe(no_mangle)]
pub extern "C" fn kifwaleb_eliminate_balance(
    n: usize,
    b_matrix: &[i64],
    b: &[i64],
    bounds: &mut [i64],
) -> KifwalebOutcome
    ensures { call_of result bounds.new ≡ over_B (system n b_matrix.now b.now) bounds.old }
{
    eliminate_balance(n, b_matrix, b, bounds).into()
}
