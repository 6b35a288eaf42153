ghost use Rattle.std.specs.Prelude.{◌≡◌};
ghost use Rattle.interval.specs.Interval.{scale, rounded};
ghost use Rattle.wide_sum.specs.Wide.{held_both};
ghost use Rattle.wide_sum.specs.Code.{Near, NearBoth, Parted, Handy};

use crate::{Wide, WideInterval};
use integer::internal::{ceil_div, floor_div};
use interval::Interval;

// 2^64 in whole scales, and what is left of it.
const SCALES: i64 = 18_446_744_073_709;

const LEFT: i64 = 551_616;

// A number as whole scales and a part.
#[derive(Clone, Copy, Debug, PartialEq, Eq)]
pub struct Parts {
    pub whole: i64,
    pub part: i64,
}

impl Wide {
    fn parted(self) -> Parts
        requires { Near 1_000 self }
        ensures { Parted self result }
    {
        Parts {
            whole: self.high * SCALES + (self.low / Interval::SCALE_UNSIGNED) as i64,
            part: self.high * LEFT + (self.low % Interval::SCALE_UNSIGNED) as i64,
        }
    }
}

// Ends in one word, rounded outward to units.
#[tactic(auto, unfolding(interval::specs::Interval::rounded, interval::specs::Interval::scale))]
pub fn rounded(v: Interval) -> Interval
    ensures { result ≡ rounded scale v }
{
    let lo = floor_div(v.lo, Interval::SCALE);
    let hi = ceil_div(v.hi, Interval::SCALE);
    Interval { lo, hi }
}

impl WideInterval {
    // Rounded outward to units.
    pub fn rounded(self) -> Interval
        requires { NearBoth 1_000 self }
        ensures { (result ≡ rounded scale (held_both self)) × Handy result.lo × Handy result.hi }
    {
        let lo = self.lo.parted();
        let hi = self.hi.parted();
        Interval {
            lo: lo.whole + floor_div(lo.part, Interval::SCALE),
            hi: hi.whole + ceil_div(hi.part, Interval::SCALE),
        }
    }
}
