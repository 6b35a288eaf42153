pub mod product;
pub mod quotient;

ghost use Rattle.std.specs.Prelude.{◌≡◌};
ghost use Rattle.interval.specs.Interval.{within, in_range, acceptable, contains_zero, exact_sum, exact_difference, intersection, is_empty};
ghost use Rattle.interval.specs.Code.{Representable};

use crate::Interval;

// A number in the range.
#[tactic(auto, unfolding(crate::specs::Interval::within, crate::specs::Interval::lowest, crate::specs::Interval::highest))]
pub fn within(z: i64) -> bool
    ensures { result ≡ within z }
{
    Interval::LOWEST <= z && z <= Interval::HIGHEST
}

// Both ends are in the range.
#[tactic(auto, unfolding(crate::specs::Interval::in_range))]
pub fn in_range(v: Interval) -> bool
    ensures { result ≡ in_range v }
{
    within(v.lo) && within(v.hi)
}

// The ends are in sequence and in the range.
#[tactic(auto, unfolding(crate::specs::Interval::acceptable))]
pub fn is_acceptable(v: Interval) -> bool
    ensures { result ≡ acceptable v }
{
    v.lo <= v.hi && in_range(v)
}

// 0 lies in the interval, its ends included.
#[tactic(auto, unfolding(crate::specs::Interval::contains_zero))]
pub fn contains_zero(v: Interval) -> bool
    ensures { result ≡ contains_zero v }
{
    v.lo <= 0 && 0 <= v.hi
}

// The sum and the difference, without a range test.
pub fn sum(x: Interval, y: Interval) -> Interval
    requires { Representable (exact_sum x y) }
    ensures { result ≡ exact_sum x y }
{
    let lo = x.lo + y.lo;
    let hi = x.hi + y.hi;
    Interval { lo, hi }
}

pub fn difference(x: Interval, y: Interval) -> Interval
    requires { Representable (exact_difference x y) }
    ensures { result ≡ exact_difference x y }
{
    let lo = x.lo - y.hi;
    let hi = x.hi - y.lo;
    Interval { lo, hi }
}

// What both hold; it may be empty.
pub fn intersection(x: Interval, y: Interval) -> Interval
    ensures { result ≡ intersection x y }
{
    Interval {
        lo: x.lo.max(y.lo),
        hi: x.hi.min(y.hi),
    }
}

// Nothing lies in the interval.
pub fn is_empty(v: Interval) -> bool
    ensures { result ≡ is_empty v }
{
    v.hi < v.lo
}
