ghost use Rattle.std.proofs.Common.{◌∙◌};
ghost use Rattle.inputs.specs.System.{system};
ghost use Rattle.sweep.specs.Code.{Ready};

use crate::internal::balance::Balance;
use interval::Interval;

// A balance as it is lent: its matrix row by row, and its right side.
#[derive(Clone, Copy)]
pub struct Square<'a> {
    pub n: usize,
    pub matrix: &'a [i64],
    pub right: &'a [i64],
}

impl<'a> Balance for Square<'a> {
    ghost system = { λ b. system b.n b.matrix.now b.right.now };

    ghost is_ready = { λ b x. Ready b.n b.matrix.now b.right.now x };

    ghost all_sound = { λ b x w. w };

    ghost stays_ready = { λ b x y w long sound inside. record {
      few = w.few;
      matrix = w.matrix;
      right = w.right;
      box = long ∙ w.box;
      matrix_sound = w.matrix_sound;
      right_sound = w.right_sound;
      box_sound = sound;
    } };

    fn size(&self) -> usize {
        self.n
    }

    fn right(&self) -> &[i64] {
        self.right
    }

    fn row_sum(&self, i: usize, x: &[i64]) -> Interval {
        rows::internal::row_sum(self.matrix, i * self.n, x, 0, self.n)
    }
}
