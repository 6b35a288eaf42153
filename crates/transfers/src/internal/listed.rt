// The sum of a row over its records alone, in one word or in two; and the new component.
ghost use Rattle.std.specs.Prelude.{◌≡◌, true, ◌+◌, ◌<◌, length};
ghost use Rattle.interval.specs.Interval.{scale, exact_sum, rounded};
ghost use Rattle.interval.specs.Code.{Representable};
ghost use Rattle.wide_sum.specs.Wide.{held_both};
ghost use Rattle.wide_sum.specs.Code.{NearBoth, AddedBoth};
ghost use Rattle.transfers.specs.Listing.{transfers_of};
ghost use Rattle.transfers.specs.Rows.{Short, BothAbove, two_terms, row_sum};

use crate::internal::found::is_short;
use crate::internal::in_rows::Sums;
use crate::internal::rounding::rounded_from_two;
use interval::Interval;
use interval::internal::sum as add;
use wide_sum::WideInterval;
use wide_sum::internal::rounding::rounded;

// One word and two differ in what bounds the sums and in what the signs are worth, so a sum of either kind would take more words than it saves.
impl Sums<'_> {
    // sum and the products of the records k and k + 1, in one word.
    #[inline(always)]
    fn short_two(&self, k: usize, sum: Interval) -> Interval
        requires k_in_bounds { k + 1 < length self.now.rows.records.now }
        requires fits { Representable (exact_sum sum (two_terms (transfers_of self.now.rows.records.now) self.now.x.now k)) }
        ensures { result ≡ exact_sum sum (two_terms (transfers_of self.now.rows.records.now) self.now.x.now k) }
    {
        if self.both_above(self.above, k) {
            return add(sum, self.two(true, k));
        }
        add(sum, self.two(false, k))
    }

    // The sum of row i, unrounded, in one word.
    #[inline(always)]
    fn short_sum(&self, i: usize) -> Interval
        requires { (i < self.now.rows.n) × Short self.now.rows.hull }
        ensures { result ≡ row_sum (transfers_of self.now.rows.records.now) self.now.rows.ends.now self.now.x.now i }
    {
        let from = self.rows.ends[i];
        let count = self.rows.ends[i + 1] - from;
        // By hand, as in wide_sum below: both go by pairs, and the edit pairs_overlap is of the step there.
        let pairs = count / 2;
        let mut sum = Interval::ZERO;
        for j in 0..pairs {
            sum = self.short_two(from + 2 * j, sum);
        }
        if 2 * pairs < count {
            return add(sum, self.term(self.above, from + 2 * pairs));
        }
        sum
    }

    // acc and the products of the records k and k + 1, in two words.
    #[inline(always)]
    fn wide_two(&self, k: usize, acc: WideInterval) -> WideInterval
        requires { (k + 1 < length self.now.rows.records.now) × NearBoth 1_000 acc }
        ensures { AddedBoth acc (two_terms (transfers_of self.now.rows.records.now) self.now.x.now k) result }
    {
        if self.both_above(false, k) {
            return acc.raised(self.two(true, k));
        }
        acc.added(self.two(false, k))
    }

    // The sum of row i, unrounded, in two words. Here it does not pay to know the signs beforehand.
    #[inline(always)]
    fn wide_sum(&self, i: usize) -> WideInterval
        requires { i < self.now.rows.n }
        ensures { (held_both result ≡ row_sum (transfers_of self.now.rows.records.now) self.now.rows.ends.now self.now.x.now i) × NearBoth 1_000 result }
    {
        let from = self.rows.ends[i];
        let count = self.rows.ends[i + 1] - from;
        // By hand: the edit pairs_overlap is of this step.
        let pairs = count / 2;
        let mut sum = WideInterval::nought();
        for j in 0..pairs {
            sum = self.wide_two(from + 2 * j, sum);
        }
        if 2 * pairs < count {
            return sum.added(self.term(false, from + 2 * pairs));
        }
        sum
    }

    // The sum of row i, rounded outward to units.
    #[inline(always)]
    pub fn row(&self, i: usize) -> Interval
        requires { i < self.now.rows.n }
        ensures { result ≡ rounded scale (row_sum (transfers_of self.now.rows.records.now) self.now.rows.ends.now self.now.x.now i) }
    {
        if is_short(self.rows.hull) {
            return rounded(self.short_sum(i));
        }
        rounded_from_two(self.wide_sum(i))
    }
}
