// The step of one row of a half pass.
ghost use Rattle.std.specs.Prelude.{◌≡◌, true, ◌+◌, ◌*◌, ◌<◌, length};
ghost use Rattle.interval.specs.Interval.{scale, exact_sum, rounded, intersection};
ghost use Rattle.inputs.specs.Place.{at};
ghost use Rattle.inputs.specs.Tests.{proper};
ghost use Rattle.inputs.specs.System.{system};
ghost use Rattle.wide_sum.specs.Wide.{held_both};
ghost use Rattle.wide_sum.specs.Code.{NearBoth};
ghost use Rattle.rows.specs.Word.{NoneBelow};
ghost use Rattle.kept_sums.specs.Kept.{sum_at, sum_ready};
ghost use Rattle.half_rows.specs.Rows.{beside, side, joined, half_row};
ghost use Rattle.half_rows.specs.Code.{Boxed, SideSummed, is_back, side_on, joined_on, Stepped};

use crate::internal::pass::HalfPass;
use crate::internal::short::rounded_any;
use crate::internal::tested::{next_single, tested_sum};
use inputs::internal::read;
use interval::Interval;
use interval::internal::{intersection, sum};
use kept_sums::internal::{read_sum, sum_ready};
use wide_sum::WideInterval;

impl HalfPass<'_> {
    // The new component i: what is known of its row so far, and the kept sum, rounded once.
    fn joined_row(self, i: usize, x: &[i64], known: WideInterval) -> Interval
        requires boxed { (i < self.n) × Boxed self.n x.now }
        requires i_value { (sum_ready self.kept.now i ≡ true) × NearBoth 33 known }
        ensures { result ≡ intersection (exact_sum (at self.entry.right.now i) (rounded scale (exact_sum (held_both known) (sum_at self.entry.kept.now i)))) (at x.now i) }
    {
        let k = read_sum(self.kept, i);
        let t = rounded_any(known.joined(k));
        let b = read(self.right, i);
        let old = read(x, i);
        intersection(sum(b, t), old)
    }

    // The step of row i, of which the side behind is summed and the kept sum is tested.
    fn summed(
        self,
        i: usize,
        h: &[i64],
        x: &[i64],
        side: WideInterval,
    ) -> Option<(Interval, WideInterval)>
        requires boxed { (i < self.n) × Boxed self.n x.now }
        requires h_len { (length h.now ≡ 2 * (beside (is_back self.way) self.n i + 1)) × (sum_ready self.kept.now i ≡ true) }
        requires side_summed { SideSummed (is_back self.way) self.n h.now x.now i side }
        ensures { Stepped (proper h.now (beside (is_back self.entry.way) self.entry.n i + 1) 0 0) true
            (joined_on (is_back self.entry.way) self.entry.n h.now self.entry.right.now x.now i (sum_at self.entry.kept.now i))
            (side_on (is_back self.entry.way) self.entry.n h.now x.now i) result }
    {
        let a = 2 * (i - self.way.begin(i));
        let known = next_single(side, &h[a..a + 2], x, i)?;
        let v = self.joined_row(i, x, known);
        Some((v, side))
    }

    // The step of row i, from its half row h.
    fn on_half_row(
        self,
        above: bool,
        i: usize,
        h: &[i64],
        x: &[i64],
    ) -> Option<(Interval, WideInterval)>
        requires boxed { (i < self.n) × Boxed self.n x.now × (above ≡ true → NoneBelow x.now) }
        requires h_len { length h.now ≡ 2 * (beside (is_back self.way) self.n i + 1) }
        ensures { Stepped (proper h.now (beside (is_back self.entry.way) self.entry.n i + 1) 0 0) (sum_ready self.entry.kept.now i)
            (joined_on (is_back self.entry.way) self.entry.n h.now self.entry.right.now x.now i (sum_at self.entry.kept.now i))
            (side_on (is_back self.entry.way) self.entry.n h.now x.now i) result }
    {
        if !sum_ready(self.kept, i) {
            return None;
        }
        let from = self.way.begin(i);
        let q = self.way.first(i);
        let d = self.way.beside(self.n, i);
        let side = tested_sum(above, WideInterval::nought(), h, q - from, x, q, d)?;
        self.summed(i, h, x, side)
    }

    // The step of row i: its new component, which may be empty, and the sum that was worked out; or none, of numbers that no operation left.
    pub fn step(self, above: bool, i: usize, x: &[i64]) -> Option<(Interval, WideInterval)>
        requires { (i < self.n) × Boxed self.n x.now × (above ≡ true → NoneBelow x.now) }
        ensures { Stepped (proper (half_row (is_back self.entry.way) (system self.entry.n self.entry.matrix.now self.entry.right.now) i) (beside (is_back self.entry.way) self.entry.n i + 1) 0 0) (sum_ready self.entry.kept.now i)
            (joined (is_back self.entry.way) (system self.entry.n self.entry.matrix.now self.entry.right.now) x.now i (sum_at self.entry.kept.now i))
            (side (is_back self.entry.way) (system self.entry.n self.entry.matrix.now self.entry.right.now) x.now i) result }
    {
        let from = self.way.begin(i);
        let d = self.way.beside(self.n, i);
        let p = i * self.n + from;
        let e = p + (d + 1);
        self.on_half_row(above, i, &self.matrix[2 * p..2 * e], x)
    }
}
