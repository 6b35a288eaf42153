ghost use Rattle.vectors.specs.Reader.{Passed};

use crate::lines;
use crate::reader::{Head, Reader};
use interval::Interval;
use outcome::Refusal;

// A step on two intervals.
#[derive(Clone, Copy, Debug, PartialEq, Eq)]
pub(crate) enum Operation {
    Sum,
    Difference,
    Product,
    Quotient,
}

// A single number where the ends are equal.
fn interval_of(lo: i64, hi: i64) -> Interval {
    if lo == hi {
        return Interval::point(lo);
    }
    Interval { lo, hi }
}

fn operand(reader: &mut Reader) -> Interval
    ensures { Passed reader.old reader.new }
{
    let lo = reader.number();
    let hi = reader.number();
    interval_of(lo, hi)
}

fn calculate(operation: Operation, x: Interval, y: Interval) -> Result<Interval, Refusal> {
    let value = match operation {
        Operation::Sum => x.sum(y),
        Operation::Difference => x.difference(y),
        Operation::Product => x.product(y),
        Operation::Quotient => x.quotient(y),
    }?;
    Ok(value)
}

// Document 01's number and place, and the interval if there is one.
fn show(rt: &impl Print, answer: Result<Interval, Refusal>) {
    lines::ended(rt, answer.map(|_| ()).into());
    if let Ok(v) = answer {
        lines::values(rt, &[v.lo, v.hi]);
    }
}

pub(crate) fn run(rt: &impl Print, reader: &mut Reader, head: Head, operation: Operation)
    ensures { Passed reader.old reader.new }
{
    let x = operand(reader);
    let y = operand(reader);
    lines::begin(rt, head);
    show(rt, calculate(operation, x, y));
    lines::end(rt);
}
