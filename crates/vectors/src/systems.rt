ghost use Rattle.vectors.specs.Reader.{Passed};

use crate::calls::{Subject, run_calls};
use crate::equations::{Equations, Room};
use crate::halves::OnState;
use crate::lines::Answer;
use crate::reader::Reader;
use crate::{halves, lines};
use elimination::{eliminate, eliminate_balance};
use start_box::start_box;
use sweep::{sweep, symmetric_sweep};

// A call that bounds the box.
#[derive(Clone, Copy, Debug, PartialEq, Eq)]
pub(crate) enum OnBox {
    Eliminate,
    EliminateBalance,
    StartBox,
    // with the sweeps allowed
    Sweep(usize),
    SymmetricSweep(usize),
}

#[derive(Clone, Copy, Debug, PartialEq, Eq)]
pub(crate) enum Call {
    Box(OnBox),
    State(OnState),
}

// A system, and the state between its calls.
#[derive(Drop)]
struct System<'a, 'b> {
    equations: Equations<'a, 'b>,
    state: [i64; 2436],
}

fn bound(system: &mut Equations, call: OnBox) -> Answer {
    let (n, matrix, right) = (system.n, system.matrix, system.right);
    let bounds = &mut *system.bounds;
    match call {
        OnBox::Eliminate => eliminate(n, matrix, right, bounds).into(),
        OnBox::EliminateBalance => eliminate_balance(n, matrix, right, bounds).into(),
        OnBox::StartBox => start_box(n, matrix, right, bounds).into(),
        OnBox::Sweep(allowed) => sweep(n, matrix, right, bounds, allowed).into(),
        OnBox::SymmetricSweep(allowed) => symmetric_sweep(n, matrix, right, bounds, allowed).into(),
    }
}

impl Subject for System<'_, '_> {
    type Call = Call;

    fn read(letter: u8, reader: &mut Reader) -> Option<Call>
        ensures { Passed reader.old reader.new }
    {
        let call = match letter {
            b'A' => OnBox::Eliminate,
            b'B' => OnBox::EliminateBalance,
            b'X' => OnBox::StartBox,
            b'S' => OnBox::Sweep(reader.natural()),
            b'Y' => OnBox::SymmetricSweep(reader.natural()),
            _ => return halves::read(letter, reader).map(Call::State),
        };
        Some(Call::Box(call))
    }

    // Printed are all numbers of the box after the call, or those that the state has of it.
    fn run<P: Print>(&mut self, rt: &P, call: Call) {
        match call {
            Call::Box(call) => {
                lines::ended(rt, bound(&mut self.equations, call));
                lines::values(rt, self.equations.bounds);
            }
            Call::State(call) => {
                let ended = halves::operate(&mut self.state, &self.equations, call);
                lines::ended(rt, ended.into());
                lines::values(rt, halves::box_of(&self.state, self.equations.n));
            }
        }
    }
}

// A system: n, the lengths of matrix, right side and box, and the numbers of all three. Its calls follow, with a state that is all 0.
pub(crate) fn run(rt: &impl Print, reader: &mut Reader)
    ensures { Passed reader.old reader.new }
{
    let mut room = Room::<2304>::new();
    let equations = room.read(reader);
    let state = [0; 2436];
    run_calls(rt, reader, &mut System { equations, state });
}
