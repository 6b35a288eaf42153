#![tactic(auto)]

pub mod internal;

ghost use Rattle.std.specs.Prelude.{◌≡◌, OnOk};
ghost use Rattle.interval.specs.Interval.{point};
ghost use Rattle.interval.specs.Answer.{refusal_of, answer_of, ranged, sum_answer, difference_answer, product_answer, quotient_answer};
ghost use Rattle.interval.specs.Code.{Tests, Acceptable};

use outcome::Refusal;

// Document 01, Bounds in units: a lower and an upper end, each a count of units of one millionth.
#[derive(Clone, Copy, Debug, PartialEq, Eq)]
pub struct Interval {
    pub lo: i64,
    pub hi: i64,
}

// Why a step is refused. refusal_of, in specs/, gives document 01's numbers.
#[derive(Clone, Copy, Debug, PartialEq, Eq)]
pub enum StepRefusal {
    // the ends of operand 0 or 1 are out of sequence or out of the range
    BadOperand(usize),
    // the divisor contains 0
    ZeroDivisor,
    // the result is out of the range
    OutOfRange,
}

impl From<StepRefusal> for Refusal {
    ghost from_gives = { λ e o. o ≡ refusal_of e };

    fn from(e: StepRefusal) -> Refusal {
        match e {
            StepRefusal::BadOperand(operand) => Refusal::Ends(operand),
            StepRefusal::ZeroDivisor => Refusal::ContainsZero(0),
            StepRefusal::OutOfRange => Refusal::OutOfRange(0),
        }
    }
}

impl Interval {
    // the units in one whole
    pub const SCALE: i64 = 1_000_000;

    // the same for unsigned numbers
    pub const SCALE_UNSIGNED: u64 = Interval::SCALE as u64;

    pub const ZERO: Interval = Interval { lo: 0, hi: 0 };

    pub const ONE: Interval = Interval {
        lo: Interval::SCALE,
        hi: Interval::SCALE,
    };
    // the range
    pub const LOWEST: i64 = -2_000_000_000;

    pub const HIGHEST: i64 = 2_000_000_000;

    // The interval of a single number.
    pub fn point(z: i64) -> Interval
        ensures { result ≡ point z }
    {
        Interval { lo: z, hi: z }
    }

    // The exact sum.
    pub fn sum(self, other: Interval) -> Result<Interval, StepRefusal>
        ensures { answer_of result ≡ sum_answer self other }
    {
        operands(self, other)?;
        in_range_only(internal::sum(self, other))
    }

    // The exact difference.
    pub fn difference(self, other: Interval) -> Result<Interval, StepRefusal>
        ensures { answer_of result ≡ difference_answer self other }
    {
        operands(self, other)?;
        in_range_only(internal::difference(self, other))
    }

    // The narrowest interval with ends in units that holds every product.
    pub fn product(self, other: Interval) -> Result<Interval, StepRefusal>
        ensures { answer_of result ≡ product_answer self other }
    {
        operands(self, other)?;
        in_range_only(internal::product::product(self, other))
    }

    // The narrowest interval with ends in units that holds every quotient.
    pub fn quotient(self, other: Interval) -> Result<Interval, StepRefusal>
        ensures { answer_of result ≡ quotient_answer self other }
    {
        operands(self, other)?;
        if internal::contains_zero(other) {
            return Err(StepRefusal::ZeroDivisor);
        }
        in_range_only(internal::quotient::quotient(self, other))
    }
}

// The tests of the operands, which are the same for each step.
fn operands(x: Interval, y: Interval) -> Result<(), StepRefusal>
    ensures tested { Tests x y result }
    ensures ok { OnOk result (Acceptable x y) }
{
    if !internal::is_acceptable(x) {
        return Err(StepRefusal::BadOperand(0));
    }
    if !internal::is_acceptable(y) {
        return Err(StepRefusal::BadOperand(1));
    }
    Ok(())
}

// A result, if it is in the range.
fn in_range_only(v: Interval) -> Result<Interval, StepRefusal>
    ensures { answer_of result ≡ ranged v }
{
    if internal::in_range(v) {
        return Ok(v);
    }
    Err(StepRefusal::OutOfRange)
}
