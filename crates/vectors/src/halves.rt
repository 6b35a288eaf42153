// The four operations on a state, which stands between the calls on a system.
ghost use Rattle.std.specs.Prelude.{◌≤◌, length};
ghost use Rattle.vectors.specs.Reader.{Passed};

use crate::equations::Equations;
use crate::reader::{Reader, first};
use half_rows::internal::state::BOX;
use half_rows::{half_down, half_up, load, narrow};
use outcome::Refusal;

#[derive(Clone, Copy, Debug, PartialEq, Eq)]
enum Operation {
    Load,
    HalfUp,
    HalfDown,
    // a vat, and the ends to narrow it by
    Narrow(usize, i64, i64),
}

// An operation on so many first numbers of the state.
#[derive(Clone, Copy, Debug, PartialEq, Eq)]
pub(crate) struct OnState {
    operation: Operation,
    size: usize,
}

fn narrowing(reader: &mut Reader) -> Operation
    ensures { Passed reader.old reader.new }
{
    let vat = reader.natural();
    let lo = reader.number();
    let hi = reader.number();
    Operation::Narrow(vat, lo, hi)
}

// The operation that a letter stands for, if it is one of the four.
pub(crate) fn read(letter: u8, reader: &mut Reader) -> Option<OnState>
    ensures { Passed reader.old reader.new }
{
    let size = reader.natural();
    let operation = match letter {
        b'L' => Operation::Load,
        b'U' => Operation::HalfUp,
        b'D' => Operation::HalfDown,
        b'Z' => narrowing(reader),
        _ => return None,
    };
    Some(OnState { operation, size })
}

pub(crate) fn operate(state: &mut [i64], system: &Equations, call: OnState) -> Result<(), Refusal> {
    let state = first(state, call.size);
    match call.operation {
        Operation::Load => load(state, system.n, system.matrix, system.right, system.bounds),
        Operation::HalfUp => half_up(state),
        Operation::HalfDown => half_down(state),
        Operation::Narrow(vat, lo, hi) => narrow(state, vat, lo, hi),
    }
}

// What the state holds where the box of n vats stands; nothing where n is above 32.
pub(crate) fn box_of(state: &[i64], n: usize) -> &[i64]
    requires { 66 ≤ length state.now }
{
    if n > 32 {
        return &[];
    }
    &state[BOX..BOX + 2 * n]
}
