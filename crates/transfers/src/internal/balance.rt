// The balance of a list, as the sweeps go over it.
ghost use Rattle.integer.proofs.Order.{trans};
ghost use Rattle.inputs.specs.System.{system};
ghost use Rattle.sweep.proofs.Pass.{ready_after};
ghost use Rattle.transfers.specs.Listing.{square, transfers_of};
ghost use Rattle.transfers.specs.Rows.{Passable};

use crate::internal::in_rows::{Rows, Sums};
use interval::Interval;
use sweep::internal::balance::Balance;

// A list in rows with a right side. above says that no share and no component is below 0.
#[derive(Clone, Copy)]
pub struct Listed<'a> {
    pub rows: Rows<'a>,
    pub right: &'a [i64],
    pub above: bool,
}

impl<'a> Balance for Listed<'a> {
    ghost system = { λ l. system l.rows.n (square l.rows.n (transfers_of l.rows.records.now)) l.right.now };

    ghost is_ready = { λ l x. Passable l.rows.n (transfers_of l.rows.records.now) l.rows.hull l.above l.right.now x };

    ghost all_sound = { λ l x w. w.ready };

    ghost stays_ready = { λ l x y w long sound inside. record {
      ready = ready_after w.ready long sound;
      signs = λ e. ((w.signs e).0, record { each = λ j. trans ((w.signs e).1.each j) (inside j).low });
    } };

    fn size(&self) -> usize {
        self.rows.n
    }

    fn right(&self) -> &[i64] {
        self.right
    }

    #[inline(always)]
    fn row_sum(&self, i: usize, x: &[i64]) -> Interval {
        let sums = Sums {
            rows: self.rows,
            x,
            above: self.above,
        };
        sums.row(i)
    }
}
