ghost use Rattle.std.specs.Prelude.{◌≡◌, true, ◌<◌, pos, ◌≤ℤ◌, ◌<ℤ◌};
ghost use Rattle.integer.specs.Total.{total};
ghost use Rattle.interval.specs.Interval.{scale};
ghost use Rattle.start_box.specs.Sums.{row_sum, column_sum, all_below_one};
ghost use Rattle.start_box.specs.Reach.{coefficients, dividend, divided, over_rows, over_columns, reach};
ghost use Rattle.start_box.specs.Code.{system_of, Totalled, reach_of};

use crate::internal::Balance;
use crate::internal::sums::magnitude;
use inputs::internal::read;
use integer::internal::ceil_div;
use interval::Interval;
use interval::internal::product::scaled_up;
use interval::internal::within;
use outcome::Refusal;

// Of a row: its magnitudes summed, and its products with those of the right side.
#[derive(Clone, Copy)]
struct RowTotals {
    sum: i64,
    dividend: i64,
}

#[tactic(auto, using(crate::proofs::Reach::divided_out, crate::proofs::Reach::divided_high, crate::proofs::Reach::divided_is))]
// A dividend by one minus a sum, rounded up, if both it and the quotient are in the range.
fn divided(p: i64, sum: i64) -> Result<i64, Refusal>
    requires { (pos 0 ≤ℤ sum) × (sum <ℤ scale) }
    ensures { reach_of result ≡ divided p sum }
{
    if within(p) {
        let q = ceil_div(p * Interval::SCALE, Interval::SCALE - sum);
        if within(q) {
            return Ok(q);
        }
    }
    Err(Refusal::OutOfRange(0))
}

impl Balance<'_> {
    #[tactic(auto, using(crate::proofs::Reach::entry_safe, crate::proofs::Reach::times_safe), unfolding(crate::specs::Sums::row_sum, crate::specs::Reach::dividend, integer::specs::Total::total))]
    // The sum of row i of |B|, and row i of |B|·|b|, each product rounded up: both in one loop, since both read the row.
    fn row_totals(&self, i: usize) -> RowTotals
        requires { i < self.now.n }
        ensures { Totalled (system_of self.now) i result }
    {
        let p = i * self.n;
        let mut sum: i64 = 0;
        let mut dividend: i64 = 0;
        for j in 0..self.n {
            let a = magnitude(read(self.matrix, p + j));
            let b = magnitude(read(self.right, j));
            sum += a;
            dividend += scaled_up(a * b);
        }
        RowTotals { sum, dividend }
    }

    #[tactic(auto, using(crate::proofs::Reach::dividend_safe, crate::proofs::Reach::dividend_next), unfolding(integer::specs::Total::total))]
    // The sum over all rows.
    fn all_dividends(&self) -> i64
        ensures { result ≡ total (dividend (system_of self.now)) self.now.n 0 }
    {
        let mut sum: i64 = 0;
        for i in 0..self.n {
            sum += self.row_totals(i).dividend;
        }
        sum
    }

    // The greatest quotient of a row.
    fn over_rows(&self) -> Result<i64, Refusal>
        requires { all_below_one (row_sum (coefficients (system_of self.now)) self.now.n) self.now.n 0 ≡ true }
        ensures { reach_of result ≡ over_rows (system_of self.now) self.now.n 0 (pos 0) }
    {
        let mut most: i64 = 0;
        for i in 0..self.n {
            let t = self.row_totals(i);
            let q = divided(t.dividend, t.sum)?;
            most = most.max(q);
        }
        Ok(most)
    }

    #[tactic(auto, unfolding(crate::specs::Reach::over_columns))]
    // The quotient of all rows together by one minus the greatest column sum.
    fn over_columns(&self) -> Result<i64, Refusal>
        requires { all_below_one (column_sum (coefficients (system_of self.now)) self.now.n) self.now.n 0 ≡ true }
        ensures { reach_of result ≡ over_columns (system_of self.now) }
    {
        let p = self.all_dividends();
        let s = self.column_sums().greatest();
        divided(p, s)
    }

    #[tactic(auto, unfolding(crate::specs::Reach::reach))]
    // By rows, else by columns, else not at all.
    pub fn reach(&self) -> Result<i64, Refusal>
        ensures { reach_of result ≡ reach (system_of self.now) }
    {
        if self.row_sums().all_below_one() {
            return self.over_rows();
        }
        if self.column_sums().all_below_one() {
            return self.over_columns();
        }
        Err(Refusal::Sums)
    }
}
