ghost use Rattle.std.specs.Prelude.{◌≡◌, ◌+◌, ◌*◌, ◌≤◌, length};
ghost use Rattle.inputs.specs.Code.{Sound};
ghost use Rattle.wide_sum.specs.Code.{NearBoth};
ghost use Rattle.rows.specs.Sum.{once};
ghost use Rattle.rows.specs.Code.{Summed};

pub mod next;
pub mod word;

use interval::Interval;
use wide_sum::WideInterval;

// The d products of the intervals of m from position p on with those of x from position q on.
#[derive(Clone, Copy)]
pub struct Products<'a> {
    pub m: &'a [i64],
    pub p: usize,
    pub x: &'a [i64],
    pub q: usize,
    pub d: usize,
    pub ghost sound: { Sound m.now × Sound x.now },
    pub ghost inside: { (2 * (p + d) ≤ length m.now) × (2 * (q + d) ≤ length x.now) × (d ≤ 32) },
}

impl Products<'_> {
    // acc and the products, unrounded.
    pub fn added_to(self, acc: WideInterval) -> WideInterval
        requires { NearBoth 900 acc }
        ensures { Summed acc self.entry.m.now self.entry.p self.entry.x.now self.entry.q self.entry.d result }
    {
        let mut sum = acc;
        // The pairs by hand: the edit last_of_an_odd_row_lost is of the test after them.
        let k = self.d / 2;
        for j in 0..k {
            sum = self.next_two(sum, 2 * j);
        }
        if 2 * k < self.d {
            return self.next_one(sum, 2 * k);
        }
        sum
    }
}

// The sum of d products of m from position p on with x from position q on, rounded outward once.
pub fn row_sum(m: &[i64], p: usize, x: &[i64], q: usize, d: usize) -> Interval
    requires sound { Sound m.now × Sound x.now }
    requires d_in_bounds { (2 * (p + d) ≤ length m.now) × (2 * (q + d) ≤ length x.now) × (d ≤ 32) }
    ensures { result ≡ once m.now p x.now q d }
{
    Products { m, p, x, q, d }
        .added_to(WideInterval::nought())
        .rounded()
}
