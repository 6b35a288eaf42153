// The calls on a list of transfers in place of the matrix.
ghost use Rattle.vectors.specs.Reader.{Passed};

use crate::calls::{Subject, run_calls};
use crate::equations::{Equations, Room};
use crate::lines;
use crate::lines::Answer;
use crate::reader::{Reader, first};
use transfers::{Transfer, eliminate_transfers, sweep_transfers, symmetric_sweep_transfers};

#[derive(Clone, Copy, Debug, PartialEq, Eq)]
pub(crate) enum Call {
    Eliminate,
    // with the sweeps allowed
    Sweep(usize),
    SymmetricSweep(usize),
}

#[derive(Drop)]
struct List<'a, 'b> {
    equations: Equations<'a, 'b>,
    transfers: &'a [Transfer],
}

// The numbers as transfers, as far as there is room.
fn listed<'a>(numbers: &[i64], room: &'a mut [Transfer]) -> &'a [Transfer] {
    let (records, _) = numbers.as_chunks::<4>();
    for (t, record) in room.iter_mut().zip(records) {
        *t = Transfer::from(*record);
    }
    first(room, records.len())
}

fn bound(list: &mut List, call: Call) -> Answer {
    let (n, transfers, right) = (list.equations.n, list.transfers, list.equations.right);
    let bounds = &mut *list.equations.bounds;
    match call {
        Call::Eliminate => eliminate_transfers(n, transfers, right, bounds).into(),
        Call::Sweep(allowed) => sweep_transfers(n, transfers, right, bounds, allowed).into(),
        Call::SymmetricSweep(allowed) => {
            symmetric_sweep_transfers(n, transfers, right, bounds, allowed).into()
        }
    }
}

impl Subject for List<'_, '_> {
    type Call = Call;

    fn read(letter: u8, reader: &mut Reader) -> Option<Call>
        ensures { Passed reader.old reader.new }
    {
        match letter {
            b'E' => Some(Call::Eliminate),
            b'G' => Some(Call::Sweep(reader.natural())),
            b'H' => Some(Call::SymmetricSweep(reader.natural())),
            _ => None,
        }
    }

    // Printed are all numbers of the box after the call.
    fn run<P: Print>(&mut self, rt: &P, call: Call) {
        lines::ended(rt, bound(self, call));
        lines::values(rt, self.equations.bounds);
    }
}

// A list: n, the lengths of list, right side and box, and the numbers of all three. Its calls follow.
pub(crate) fn run(rt: &impl Print, reader: &mut Reader)
    ensures { Passed reader.old reader.new }
{
    let mut room = Room::<4100>::new();
    let mut transfers = [Transfer::from([0; 4]); 1025];
    let equations = room.read(reader);
    let transfers = listed(equations.matrix, &mut transfers);
    let mut list = List {
        equations,
        transfers,
    };
    run_calls(rt, reader, &mut list);
}
