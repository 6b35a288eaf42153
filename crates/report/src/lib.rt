#![tactic(auto)]

pub mod claims;
pub mod internal;

ghost use Rattle.std.specs.Prelude.{◌≡◌, IfOk, length};
ghost use Rattle.outcome.specs.Run.{counted};
ghost use Rattle.report.specs.Call.{answer_of, room, report, print, IsPrefixLen};

use crate::internal::report::put_balance;
use crate::internal::sheet::{hand_out, refused};
use inputs::Slice;
use inputs::internal::lengths;
use outcome::{Ending, Refusal};
use text::internal::lines::{Numbers, read_text};

// What is answered where bounds were reached: how, and how many bytes were written.
#[derive(Clone, Copy, Debug, PartialEq, Eq)]
pub struct Written {
    pub ending: Ending,
    pub count: usize,
}

// Test 2, of the slice lent for a sheet.
fn room(out: &[u8]) -> Result<(), Refusal>
    ensures answer { result ≡ room out.now }
    ensures long { IfOk result (λ _. length out.now ≡ 2048) }
{
    lengths(&[Slice {
        place: 3,
        held: out.len(),
        wanted: 2048,
    }])
}

// From a text to the sheet of its balance, at the beginning of out, or its refusal.
pub fn report(text: &[u8], out: &mut [u8]) -> Result<Written, Refusal>
    ensures { answer_of result out.new ≡ report text.now out.old }
{
    let mut t: Numbers = [0; 2112];
    let h = read_text(text, &mut t)?;
    room(out)?;
    put_balance(out, &text[..h.stop], h.count, &t)
}

// Writes to the beginning of out every byte that the program 'balance' prints for a text, and answers how many.
pub fn print(text: &[u8], out: &mut [u8]) -> Result<usize, Refusal>
    ensures out_after { counted result out.new ≡ print text.now out.old }
    ensures inside { IfOk result (λ n. IsPrefixLen n out.new) }
{
    room(out)?;
    match report(text, out) {
        Ok(w) => Ok(w.count),
        Err(o) => Ok(hand_out(&refused(Err(o)), out)),
    }
}
