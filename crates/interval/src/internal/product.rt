ghost use Rattle.std.specs.Prelude.{◌≡◌, true, pos, negsuc, ◌+ℤ◌, ◌-ℤ◌, ◌≤ℤ◌};
ghost use Rattle.integer.specs.Rounding.{floor_div, ceil_div};
ghost use Rattle.interval.specs.Interval.{scale, acceptable, exact_product, product};
ghost use Rattle.interval.specs.Code.{Bounded, GreatestWith};

use crate::Interval;

// Rounding by the scale is one unsigned division by a constant: BIAS, a multiple of the scale, lifts every product of two ends to 0 or more.
const BIAS_IN_SCALES: i64 = 4_000_000_000_000;

const BIAS: i64 = BIAS_IN_SCALES * Interval::SCALE;
// One part less than the scale: the ceiling of p / SCALE is the floor of (p + ROUND_UP) / SCALE.
const ROUND_UP: i64 = Interval::SCALE - 1;

const BIAS_AND_ROUND_UP: i64 = BIAS + ROUND_UP;

// (p + bias) / SCALE rounded down, and the bias taken off again.
fn biased(p: i64, bias: i64) -> i64
    requires p_bound { Bounded p }
    requires bias_bound { (pos 4_000_000_000_000_000_000 ≤ℤ bias) × (bias ≤ℤ pos 4_000_000_000_000_999_999) }
    ensures { result ≡ floor_div (p +ℤ bias) scale -ℤ pos 4_000_000_000_000 }
{
    let n = (p + bias) as u64;
    let q = (n / Interval::SCALE_UNSIGNED) as i64;
    q - BIAS_IN_SCALES
}

// p / SCALE rounded down.
fn scaled_down(p: i64) -> i64
    requires negsuc_bound { negsuc 3_999_999_999_999_999_999 ≤ℤ p }
    requires p_bound { p ≤ℤ pos 4_000_000_000_000_000_000 }
    ensures { result ≡ floor_div p scale }
{
    biased(p, BIAS)
}

// p / SCALE rounded up.
pub fn scaled_up(p: i64) -> i64
    requires negsuc_bound { negsuc 3_999_999_999_999_999_999 ≤ℤ p }
    requires p_bound { p ≤ℤ pos 4_000_000_000_000_000_000 }
    ensures { result ≡ ceil_div p scale }
{
    biased(p, BIAS_AND_ROUND_UP)
}

// The product of two intervals that are not below 0, unrounded.
pub fn product_above(x: Interval, y: Interval) -> Interval
    requires x_value { acceptable x ≡ true }
    requires y_value { acceptable y ≡ true }
    requires pos_bound { (pos 0 ≤ℤ x.lo) × (pos 0 ≤ℤ y.lo) }
    ensures { result ≡ exact_product x y }
{
    let a = x.lo;
    let b = x.hi;
    let c = y.lo;
    let d = y.hi;
    let lo = a * c;
    let hi = b * d;
    Interval { lo, hi }
}

// Of the ends a and b the one whose product with z is the greatest: chosen before it is multiplied, so that no jump is to be foreseen.
fn greatest_end(a: i64, b: i64, z: i64) -> i64
    requires { a ≤ℤ b }
    ensures { GreatestWith a b z result }
{
    if z < 0 {
        return a;
    }
    b
}

// The product of an interval that is not below 0 and any other: the signs tell which ends count.
fn above_times(x: Interval, y: Interval) -> Interval
    requires x_value { acceptable x ≡ true }
    requires y_value { acceptable y ≡ true }
    requires pos_bound { pos 0 ≤ℤ x.lo }
    ensures { result ≡ exact_product x y }
{
    let a = x.lo;
    let b = x.hi;
    let c = y.lo;
    let d = y.hi;
    if 0 <= c {
        return product_above(x, y);
    }
    let e = greatest_end(a, b, d);
    let lo = b * c;
    let hi = e * d;
    Interval { lo, hi }
}

// The same of one that is not above 0.
fn below_times(x: Interval, y: Interval) -> Interval
    requires x_value { acceptable x ≡ true }
    requires y_value { acceptable y ≡ true }
    requires hi_bound { x.hi ≤ℤ pos 0 }
    ensures { result ≡ exact_product x y }
{
    let a = x.lo;
    let b = x.hi;
    let c = y.lo;
    let d = y.hi;
    if d < 0 {
        return Interval {
            lo: b * d,
            hi: a * c,
        };
    }
    let e = greatest_end(a, b, c);
    let lo = a * d;
    let hi = e * c;
    Interval { lo, hi }
}

// The same of one that lies across 0.
fn across_times(x: Interval, y: Interval) -> Interval
    requires x_value { acceptable x ≡ true }
    requires y_value { acceptable y ≡ true }
    requires lo_bound { (x.lo ≤ℤ pos 0) × (pos 0 ≤ℤ x.hi) }
    ensures { result ≡ exact_product x y }
{
    let a = x.lo;
    let b = x.hi;
    let c = y.lo;
    let d = y.hi;
    Interval {
        lo: (a * d).min(b * c),
        hi: (a * c).max(b * d),
    }
}

// The least and the greatest of the four products of ends, unrounded. The left operand's signs are looked at first.
pub fn exact_product(x: Interval, y: Interval) -> Interval
    requires x_value { acceptable x ≡ true }
    requires y_value { acceptable y ≡ true }
    ensures { result ≡ exact_product x y }
{
    if 0 <= x.lo {
        return above_times(x, y);
    }
    if x.hi < 0 {
        return below_times(x, y);
    }
    across_times(x, y)
}

// The product, rounded outwards, without a range test.
pub fn product(x: Interval, y: Interval) -> Interval
    requires x_value { acceptable x ≡ true }
    requires y_value { acceptable y ≡ true }
    ensures { result ≡ product x y }
{
    let p = exact_product(x, y);
    let lo = scaled_down(p.lo);
    let hi = scaled_up(p.hi);
    Interval { lo, hi }
}
