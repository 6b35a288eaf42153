#![tactic(auto)]

// Runs the cases of the file 'cases' on the library's public calls, and prints one line a case: the number of the case, the call's letter, document 01's number and place,
// the count if there is one, and what the call wrote. A line of the file begins with the number of its case, if it is one, and a letter:
//   #                 a remark
//   + - * /           a step: two intervals
//   M n m r b         a system: n, the lengths of matrix, right side and box, and so many numbers; then its cases, each with the box as the one before left it:
//     A               elimination from A and f
//     B               elimination from B and b
//     S allowed       sweeps
//     Y allowed       sweeps there and back
//     X               the start box from B and b
//     L len           loads B, b and the box into the first len numbers of a state: 2,436 numbers, all 0 at first, which stand between the cases
//     U len           the half pass up on the first len numbers of the state
//     D len           the half pass down
//     Z len vat lo hi narrows a vat by [lo, hi]; printed for it, and for L, U and D, are the 2n numbers from place 2 of the state on, none if n is above 32
//   V n t r b         a list of transfers: as M, with t numbers, four to a transfer, in place of the matrix; then its cases:
//     E               elimination from the list and b
//     G allowed       sweeps
//     H allowed       sweeps there and back
//   C n f s           the narrower of two boxes: n, their lengths, and so many numbers; printed are the length and the numbers of the one handed back
//   T length          a text: a line end, and so many bytes; then its cases:
//     R m r           its numbers, into slices of these lengths; n stands for the count
//     N vat           the name of a vat: its length and its bytes
//     W length        its sheet or its refusal, into a slice of this length
//     P length        what 'balance' prints for it, into a slice of this length
//     F from byte     the first such byte in it, from a place on, which may lie past its end: its place, or 'none'
mod boxes;
mod calls;
mod equations;
mod halves;
mod lines;
mod lists;
mod reader;
mod steps;
mod systems;
mod texts;

ghost use Rattle.std.specs.Prelude.{◌≡◌, ◌≤◌, length};
ghost use Rattle.vectors.specs.Reader.{Passed};

use crate::reader::{Head, Reader};
use crate::steps::Operation;
use std::fs::File;
use std::io::Read;

// What a letter says that follows.
#[derive(Clone, Copy, Debug, PartialEq, Eq)]
enum Kind {
    Remark,
    Step(Operation),
    System,
    List,
    Boxes,
    Text,
}

// A letter that nothing begins with.
#[derive(Clone, Copy, Debug, PartialEq, Eq)]
struct UnknownLetter(u8);

impl TryFrom<u8> for Kind {
    type Error = UnknownLetter;

    fn try_from(letter: u8) -> Result<Kind, UnknownLetter> {
        match letter {
            b'#' => Ok(Kind::Remark),
            b'+' => Ok(Kind::Step(Operation::Sum)),
            b'-' => Ok(Kind::Step(Operation::Difference)),
            b'*' => Ok(Kind::Step(Operation::Product)),
            b'/' => Ok(Kind::Step(Operation::Quotient)),
            b'M' => Ok(Kind::System),
            b'V' => Ok(Kind::List),
            b'C' => Ok(Kind::Boxes),
            b'T' => Ok(Kind::Text),
            _ => Err(UnknownLetter(letter)),
        }
    }
}

// What a line begins.
fn run(rt: &impl Print, reader: &mut Reader, head: Head) -> Result<(), UnknownLetter>
    ensures { Passed reader.old reader.new }
{
    match Kind::try_from(head.letter)? {
        Kind::Remark => reader.line(),
        Kind::Step(operation) => steps::run(rt, reader, head, operation),
        Kind::System => systems::run(rt, reader),
        Kind::List => lists::run(rt, reader),
        Kind::Boxes => boxes::run(rt, reader, head),
        Kind::Text => texts::run(rt, reader),
    }
    Ok(())
}

// A byte 0 for a letter ends the cases.
fn run_all(rt: &impl Print, cases: &[u8]) {
    let mut reader = Reader::new(cases);
    while let Some(head) = reader.head() {
        if let Err(UnknownLetter(letter)) = run(rt, &mut reader, head) {
            if letter != 0 {
                lines::say(rt, b"no such call\n");
            }
            return;
        }
    }
}

// What the file holds, as far as buf has room for it, and no more than was read before a read that fails.
fn read_cases<'a, R: Read>(file: &mut R, buf: &'a mut [u8]) -> &'a [u8]
    ensures start { result.ref_ptr ≡ buf.entry.ref_ptr }
    ensures size { length result.now ≤ length buf.old }
{
    // by a place: it moves by as many bytes as each read gives
    let mut done = 0;
    while let Ok(more) = file.read(&mut buf[done..])
        && more > 0
    {
        done += more;
    }
    &buf[..done]
}

fn main(rt: HostRuntime) {
    match File::open(&rt, "cases") {
        Ok(mut file) => {
            // An array of fixed size, since there is no heap.
            let mut cases = [0u8; 1048576];
            run_all(&rt, read_cases(&mut file, &mut cases));
        }
        Err(e) => {
            let _ = eprintln!(rt; "cases: {e}");
        }
    }
}
