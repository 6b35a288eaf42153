ghost use Rattle.std.specs.Prelude.{◌≡◌, true, List, ◌+◌, ◌*◌, ◌≤◌, ◌<◌, ℤ, length};
ghost use Rattle.outcome.specs.Run.{run_of};
ghost use Rattle.interval.specs.Interval.{acceptable};
ghost use Rattle.inputs.specs.System.{system};
ghost use Rattle.half_rows.specs.Rows.{renew};
ghost use Rattle.half_rows.specs.Code.{change};

use inputs::internal::read;
use interval::Interval;
use interval::internal::is_acceptable;
use interval::internal::product::exact_product;
use kept_sums::internal::{read_sum, sum_ready, write_sum};
use outcome::Refusal;

// Component v, which was old and becomes new. The right side is not read.
#[derive(Clone, Copy)]
pub struct Exchange<'a> {
    pub n: usize,
    pub matrix: &'a [i64],
    pub v: usize,
    pub old: Interval,
    pub new: Interval,
    pub ghost few: { n ≤ 32 },
    pub ghost v_bound: { v < n },
    pub ghost matrix_len: { length matrix.now ≡ 2 * (n * n) },
    pub ghost old_sound: { acceptable old ≡ true },
    pub ghost new_sound: { acceptable new ≡ true },
}

impl Exchange<'_> {
    // What the product with a changes by, end by end.
    fn change(self, a: Interval) -> Interval
        requires { acceptable a ≡ true }
        ensures { result ≡ change a self.entry.old self.entry.new }
    {
        let p = exact_product(self.new, a);
        let q = exact_product(self.old, a);
        Interval {
            lo: p.lo - q.lo,
            hi: p.hi - q.hi,
        }
    }

    // The kept sum of row i is renewed, if the numbers are of a state.
    fn renew_row(self, i: usize, sums: &mut [i64]) -> Result<(), Refusal>
        requires { (i < self.n) × (length sums.old ≡ 4 * self.n) }
        ensures { (r : List ℤ) → run_of result sums.new ≡
            renew (system self.entry.n self.entry.matrix.now r) self.entry.v self.entry.old self.entry.new 1 i sums.old }
    {
        let a = read(self.matrix, i * self.n + self.v);
        if !is_acceptable(a) || !sum_ready(sums, i) {
            return Err(Refusal::NotDue);
        }
        let k = read_sum(sums, i);
        let c = self.change(a);
        write_sum(sums, i, k.added(c));
        Ok(())
    }

    // The kept sums of d rows from one on are renewed.
    pub fn renew(self, from: usize, d: usize, sums: &mut [i64]) -> Result<(), Refusal>
        requires { (from + d ≤ self.n) × (length sums.old ≡ 4 * self.n) }
        ensures { (r : List ℤ) → run_of result sums.new ≡
            renew (system self.entry.n self.entry.matrix.now r) self.entry.v self.entry.old self.entry.new d from sums.old }
    {
        for i in from..from + d {
            self.renew_row(i, sums)?;
        }
        Ok(())
    }
}
