ghost use Rattle.std.specs.Prelude.{◌≡◌, ◌*◌, ◌≤◌, length};
ghost use Rattle.outcome.specs.Run.{run_of};
ghost use Rattle.inputs.specs.System.{system};
ghost use Rattle.inputs.specs.Code.{Sound};
ghost use Rattle.half_rows.specs.Rows.{worked, components, half_along};
ghost use Rattle.half_rows.specs.Code.{Boxed, is_back};

use crate::internal::way::Way;
use inputs::internal::write;
use interval::internal::is_empty;
use kept_sums::internal::write_sum;
use outcome::Refusal;
use rows::internal::word::all_above;

// What a half pass reads: its way, the system, and the sums that are kept of the side ahead. The box and the new sums are no fields, since a pass changes them from step to step.
#[derive(Clone, Copy)]
pub struct HalfPass<'a> {
    pub n: usize,
    pub way: Way,
    pub matrix: &'a [i64],
    pub right: &'a [i64],
    pub kept: &'a [i64],
    pub ghost few: { n ≤ 32 },
    pub ghost matrix_len: { length matrix.now ≡ 2 * (n * n) },
    pub ghost right_len: { length right.now ≡ 2 * n },
    pub ghost kept_len: { length kept.now ≡ 4 * n },
    pub ghost right_sound: { Sound right.now },
}

impl HalfPass<'_> {
    // The half pass on x, with the sums worked out of the side behind.
    pub fn run(self, x: &mut [i64], sums: &mut [i64]) -> Result<(), Refusal>
        requires { Boxed self.n x.old × (length sums.old ≡ 4 * self.n) }
        ensures { run_of result (worked x.new sums.new) ≡
            half_along (is_back self.entry.way) (system self.entry.n self.entry.matrix.now self.entry.right.now) self.entry.kept.now
            (components (is_back self.entry.way) self.entry.n) x.old sums.old }
    {
        let above = all_above(x, self.n);
        for k in 0..self.n {
            let i = self.way.component(self.n, k);
            let (v, s) = self.step(above, i, x).ok_or(Refusal::NotDue)?;
            if is_empty(v) {
                return Err(Refusal::Empty(i + 1));
            }
            write(x, i, v);
            write_sum(sums, i, s);
        }
        Ok(())
    }
}
