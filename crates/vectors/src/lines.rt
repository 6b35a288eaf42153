// The lines that are printed, one a case. A write that fails is passed over.
ghost use Rattle.std.specs.Prelude.{◌≤◌};

use crate::reader::Head;
use arrayvec::ArrayVec;
use itoa::{Buffer, Integer};
use outcome::{Ending, Outcome, Refusal, number, place};
use report::Written;
use sweep::Swept;

// How a call ended, and its count, if it has one.
#[derive(Clone, Copy)]
pub(crate) struct Answer {
    outcome: Outcome,
    count: Option<usize>,
}

impl From<Result<(), Refusal>> for Answer {
    fn from(ended: Result<(), Refusal>) -> Answer {
        Answer {
            outcome: ended.map(|()| Ending::Done),
            count: None,
        }
    }
}

impl From<Swept> for Answer {
    fn from(swept: Swept) -> Answer {
        Answer {
            outcome: swept.outcome,
            count: Some(swept.count),
        }
    }
}

// The count is 0 with a refusal.
impl From<Result<usize, Refusal>> for Answer {
    fn from(counted: Result<usize, Refusal>) -> Answer {
        Answer {
            outcome: counted.map(|_| Ending::Done),
            count: Some(counted.unwrap_or(0)),
        }
    }
}

impl From<Result<Written, Refusal>> for Answer {
    fn from(written: Result<Written, Refusal>) -> Answer {
        Answer {
            outcome: written.map(|w| w.ending),
            count: Some(written.map_or(0, |w| w.count)),
        }
    }
}

pub(crate) fn say(rt: &impl Print, s: &[u8]) {
    let _ = rt.write_all(s);
}

// A line begins with its case and the letter of the call.
pub(crate) fn begin(rt: &impl Print, head: Head) {
    let _ = print!(rt; "{} {}", head.case, char::from(head.letter));
}

pub(crate) fn end(rt: &impl Print) {
    say(rt, b"\n");
}

// A number behind a blank, in one write. By print it takes three times the instructions, and most lines are numbers.
pub(crate) fn value<I: Integer>(rt: &impl Print, n: I)
    requires { I.MAX_STR_LEN ≤ 40 }
{
    let mut digits = Buffer::new();
    let mut line: ArrayVec<u8, 41> = ArrayVec::new();
    line.push(b' ');
    line.try_extend_from_slice(digits.format(n).as_bytes())
        .unwrap();
    say(rt, line.as_slice());
}

pub(crate) fn values(rt: &impl Print, t: &[i64]) {
    for z in t {
        value(rt, *z);
    }
}

// Document 01's number and place, and the count if there is one.
pub(crate) fn ended(rt: &impl Print, answer: Answer) {
    value(rt, number(answer.outcome));
    value(rt, place(answer.outcome));
    if let Some(count) = answer.count {
        value(rt, count);
    }
}
