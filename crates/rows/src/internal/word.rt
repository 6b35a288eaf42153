// Sums of products in one word, of shares and components that are not below 0.
ghost use Rattle.std.specs.Prelude.{◌≡◌, true, ◌*◌, ◌≤◌, pos, length, ◌≤ℤ◌};
ghost use Rattle.interval.specs.Interval.{acceptable};
ghost use Rattle.inputs.specs.Code.{Sound};
ghost use Rattle.rows.specs.Word.{Modest, SumModest, NextAbove, NoneBelow};

use inputs::internal::read;
use interval::Interval;
use interval::internal::product::product_above;
use interval::internal::sum as add;

// Whether a share is an interval, not below 0 and at most 2^24 units, as the shares of a vat are: 32 products of such with components then fit 64 bits.
pub fn is_modest(a: Interval) -> bool
    ensures { result ≡ true → Modest a }
{
    if a.lo < 0 {
        return false;
    }
    if a.hi < a.lo {
        return false;
    }
    a.hi <= 16_777_216
}

// sum and the product of a modest share with a component that is not below 0.
pub fn next_above(sum: Interval, a: Interval, b: Interval) -> Interval
    requires modest { Modest a × (acceptable b ≡ true) × (pos 0 ≤ℤ b.lo) }
    requires sum_modest { SumModest 31 sum }
    ensures { NextAbove sum a b result }
{
    let u = product_above(a, b);
    add(sum, u)
}

// Whether no component of x is below 0. No pass lowers a lower end, so what holds before it holds throughout.
pub fn all_above(x: &[i64], n: usize) -> bool
    requires { (length x.now ≡ 2 * n) × (n ≤ 32) × Sound x.now }
    ensures { result ≡ true → NoneBelow x.now }
{
    (0..n).all(|j| 0 <= read(x, j).lo)
}
