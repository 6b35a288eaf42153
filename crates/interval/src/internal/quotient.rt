ghost use Rattle.std.specs.Prelude.{◌≡◌, true, false, pos, ◌≤ℤ◌, ◌<ℤ◌};
ghost use Rattle.integer.specs.Rounding.{floor_div, ceil_div};
ghost use Rattle.integer.specs.Extremes.{minimum, maximum};
ghost use Rattle.interval.specs.Interval.{acceptable, contains_zero, quotient};
ghost use Rattle.interval.specs.Code.{negated};

use crate::Interval;
use integer::internal::{ceil_div, floor_div};

// The lower of a / near and a / far, rounded down.
fn lower_quotient(a: i64, near: i64, far: i64) -> i64
    requires pos_bound { pos 0 <ℤ near }
    requires near_le_far { near ≤ℤ far }
    ensures { result ≡ minimum (floor_div a near) (floor_div a far) }
{
    if a < 0 {
        return floor_div(a, near);
    }
    floor_div(a, far)
}

// The greater of b / near and b / far, rounded up: the lower one turned round, which signs turned twice would hide.
fn upper_quotient(b: i64, near: i64, far: i64) -> i64
    requires pos_bound { pos 0 <ℤ near }
    requires near_le_far { near ≤ℤ far }
    ensures { result ≡ maximum (ceil_div b near) (ceil_div b far) }
{
    if 0 < b {
        return ceil_div(b, near);
    }
    ceil_div(b, far)
}

fn quotient_by_positive(x: Interval, y: Interval) -> Interval
    requires x_value { acceptable x ≡ true }
    requires y_value { acceptable y ≡ true }
    requires pos_bound { pos 0 <ℤ y.lo }
    ensures { result ≡ quotient x y }
{
    let near = y.lo;
    let far = y.hi;
    let a = x.lo * Interval::SCALE;
    let b = x.hi * Interval::SCALE;
    let lo = lower_quotient(a, near, far);
    let hi = upper_quotient(b, near, far);
    Interval { lo, hi }
}

fn negation(v: Interval) -> Interval
    requires { acceptable v ≡ true }
    ensures { result ≡ negated v }
{
    let lo = -v.hi;
    let hi = -v.lo;
    Interval { lo, hi }
}

// The quotient, rounded outwards, without a range test. A negative divisor turns both signs.
pub fn quotient(x: Interval, y: Interval) -> Interval
    requires x_value { acceptable x ≡ true }
    requires y_value { acceptable y ≡ true }
    requires y_value_2 { contains_zero y ≡ false }
    ensures { result ≡ quotient x y }
{
    if 0 < y.lo {
        return quotient_by_positive(x, y);
    }
    quotient_by_positive(negation(x), negation(y))
}
