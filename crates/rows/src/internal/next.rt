// The next products of a row: one, or two that are added together first.
ghost use Rattle.std.specs.Prelude.{◌≡◌, true, ◌+◌, ◌<◌};
ghost use Rattle.interval.specs.Interval.{exact_product};
ghost use Rattle.inputs.specs.Place.{at};
ghost use Rattle.wide_sum.specs.Code.{NearBoth};
ghost use Rattle.rows.specs.Code.{Summed, Above};

use crate::internal::Products;
use inputs::internal::read;
use interval::Interval;
use interval::internal::product::{exact_product, product_above};
use interval::internal::sum;
use wide_sum::WideInterval;

impl Products<'_> {
    // The j-th product, unrounded. The signs of x are looked at first: it has the vats' bounds, the same ones for every row.
    fn product(self, j: usize) -> Interval
        requires { j < self.d }
        ensures { result ≡ exact_product (at self.entry.m.now (self.entry.p + j)) (at self.entry.x.now (self.entry.q + j)) }
    {
        let a = read(self.m, self.p + j);
        let b = read(self.x, self.q + j);
        exact_product(b, a)
    }

    // acc and that product.
    pub fn next_one(self, acc: WideInterval, j: usize) -> WideInterval
        requires near_both { NearBoth 1_000 acc }
        requires j_bound { j < self.d }
        ensures { Summed acc self.entry.m.now (self.entry.p + j) self.entry.x.now (self.entry.q + j) 1 result }
    {
        let u = self.product(j);
        acc.added(u)
    }

    // Whether neither factor of the j-th product is below 0.
    fn are_above(self, j: usize) -> bool
        requires { j < self.d }
        ensures { result ≡ true → Above (at self.entry.m.now (self.entry.p + j)) (at self.entry.x.now (self.entry.q + j)) }
    {
        let b = read(self.x, self.q + j);
        if b.lo < 0 {
            return false;
        }
        let a = read(self.m, self.p + j);
        0 <= a.lo
    }

    // The j-th product, of factors that are not below 0.
    fn product_above(self, j: usize) -> Interval
        requires j_bound { j < self.d }
        requires above { Above (at self.m.now (self.p + j)) (at self.x.now (self.q + j)) }
        ensures { result ≡ exact_product (at self.entry.m.now (self.entry.p + j)) (at self.entry.x.now (self.entry.q + j)) }
    {
        let a = read(self.m, self.p + j);
        let b = read(self.x, self.q + j);
        product_above(a, b)
    }

    // acc and the next two products, of factors that are not below 0, as shares and weights are. Two products together fit 64 bits.
    fn two_above(self, acc: WideInterval, j: usize) -> WideInterval
        requires near_both { NearBoth 1_000 acc }
        requires j_bound { j + 1 < self.d }
        requires above { Above (at self.m.now (self.p + j)) (at self.x.now (self.q + j)) × Above (at self.m.now (self.p + (j + 1))) (at self.x.now (self.q + (j + 1))) }
        ensures { Summed acc self.entry.m.now (self.entry.p + j) self.entry.x.now (self.entry.q + j) 2 result }
    {
        let u = self.product_above(j);
        let v = self.product_above(j + 1);
        acc.raised(sum(u, v))
    }

    // acc and the next two products, of any factors.
    fn any_two(self, acc: WideInterval, j: usize) -> WideInterval
        requires near_both { NearBoth 1_000 acc }
        requires j_bound { j + 1 < self.d }
        ensures { Summed acc self.entry.m.now (self.entry.p + j) self.entry.x.now (self.entry.q + j) 2 result }
    {
        let u = self.product(j);
        let v = self.product(j + 1);
        acc.added(sum(u, v))
    }

    // acc and the j-th product and the next.
    pub fn next_two(self, acc: WideInterval, j: usize) -> WideInterval
        requires near_both { NearBoth 1_000 acc }
        requires j_bound { j + 1 < self.d }
        ensures { Summed acc self.entry.m.now (self.entry.p + j) self.entry.x.now (self.entry.q + j) 2 result }
    {
        if self.are_above(j) && self.are_above(j + 1) {
            return self.two_above(acc, j);
        }
        self.any_two(acc, j)
    }
}
