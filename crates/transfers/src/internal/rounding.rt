// The sum of a row in two words, rounded outward to units.
ghost use Rattle.std.specs.Prelude.{◌≡◌, pos};
ghost use Rattle.integer.specs.Rounding.{floor_div, ceil_div};
ghost use Rattle.interval.specs.Interval.{scale, rounded};
ghost use Rattle.wide_sum.specs.Wide.{held_both};
ghost use Rattle.wide_sum.specs.Code.{NearBoth};

use interval::Interval;
use wide_sum::WideInterval;

// A number that is not below 0, rounded down and up.
#[tactic(auto, using(crate::proofs::Rounding::floor_read))]
fn floor(p: u64) -> i64
    ensures { result ≡ floor_div (pos p) scale }
{
    (p / Interval::SCALE_UNSIGNED) as i64
}

#[tactic(auto, using(crate::proofs::Rounding::ceil_read))]
fn ceiling(p: u64) -> i64
    ensures { result ≡ ceil_div (pos p) scale }
{
    p.div_ceil(Interval::SCALE_UNSIGNED) as i64
}

// Where the high words are 0 the low ones are enough, and take less time.
#[tactic(auto, using(crate::proofs::Rounding::low_alone), unfolding(interval::specs::Interval::rounded, wide_sum::specs::Wide::held_both))]
pub fn rounded_from_two(w: WideInterval) -> Interval
    requires { NearBoth 1_000 w }
    ensures { result ≡ rounded scale (held_both w) }
{
    let a = w.lo;
    let b = w.hi;
    if a.high == 0 && b.high == 0 {
        let lo = floor(a.low);
        let hi = ceiling(b.low);
        return Interval { lo, hi };
    }
    w.rounded()
}
