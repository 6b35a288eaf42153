ghost use Rattle.std.specs.Prelude.{◌≡◌};
ghost use Rattle.outcome.specs.Run.{returned};
ghost use Rattle.interval.specs.Answer.{answer_of, sum_answer, difference_answer, product_answer, quotient_answer};
ghost use Rattle.interval.specs.Interval.{ends};
ghost use Rattle.capi.specs.Flat.{step_of};

use interval::{Interval, StepRefusal};
use outcome::{Ending, Outcome, number, place};

// A step's answer for callers in C and Rust: document 01's number and place, and the interval's ends, which are 0 on a refusal.
#[repr(C)]
#[derive(Clone, Copy)]
pub struct KifwalebStep {
    pub number: u64,
    pub place: u64,
    pub lo: i64,
    pub hi: i64,
}

fn returned(o: Outcome, v: Interval) -> KifwalebStep
    ensures { step_of result ≡ returned o 0 v }
{
    KifwalebStep {
        number: number(o),
        place: place(o) as u64,
        lo: v.lo,
        hi: v.hi,
    }
}

impl From<Result<Interval, StepRefusal>> for KifwalebStep {
    ghost from_gives = { λ r k. step_of k ≡ answer_of r };

    fn from(r: Result<Interval, StepRefusal>) -> KifwalebStep {
        match r {
            Ok(v) => returned(Ok(Ending::Done), v),
            Err(e) => returned(Err(e.into()), Interval::ZERO),
        }
    }
}

// The four steps, each over the ends of two intervals.
#[unsafe(no_mangle)]
pub extern "C" fn kifwaleb_sum(a_lo: i64, a_hi: i64, b_lo: i64, b_hi: i64) -> KifwalebStep
    ensures { step_of result ≡ sum_answer (ends a_lo a_hi) (ends b_lo b_hi) }
{
    let a = Interval { lo: a_lo, hi: a_hi };
    let b = Interval { lo: b_lo, hi: b_hi };
    a.sum(b).into()
}

#[unsafe(no_mangle)]
pub extern "C" fn kifwaleb_difference(a_lo: i64, a_hi: i64, b_lo: i64, b_hi: i64) -> KifwalebStep
    ensures { step_of result ≡ difference_answer (ends a_lo a_hi) (ends b_lo b_hi) }
{
    let a = Interval { lo: a_lo, hi: a_hi };
    let b = Interval { lo: b_lo, hi: b_hi };
    a.difference(b).into()
}

#[unsafe(no_mangle)]
pub extern "C" fn kifwaleb_product(a_lo: i64, a_hi: i64, b_lo: i64, b_hi: i64) -> KifwalebStep
    ensures { step_of result ≡ product_answer (ends a_lo a_hi) (ends b_lo b_hi) }
{
    let a = Interval { lo: a_lo, hi: a_hi };
    let b = Interval { lo: b_lo, hi: b_hi };
    a.product(b).into()
}

#[unsafe(no_mangle)]
pub extern "C" fn kifwaleb_quotient(a_lo: i64, a_hi: i64, b_lo: i64, b_hi: i64) -> KifwalebStep
    ensures { step_of result ≡ quotient_answer (ends a_lo a_hi) (ends b_lo b_hi) }
{
    let a = Interval { lo: a_lo, hi: a_hi };
    let b = Interval { lo: b_lo, hi: b_hi };
    a.quotient(b).into()
}
