// The start box, after the tests 1, 2 and 3.
pub mod reach;
pub mod sums;
pub mod widen;

ghost use Rattle.start_box.specs.Ready.{Square, Right};

use crate::internal::sums::LineSums;
use crate::internal::widen::BoxAround;
use outcome::Refusal;

// B and b, tested: x = B·x + b. The slices need not be a caller's own.
#[derive(Clone, Copy)]
pub struct Balance<'a> {
    pub n: usize,
    pub matrix: &'a [i64],
    pub right: &'a [i64],
    ghost square: { Square n matrix.now },
    ghost tested: { Right n right.now },
}

impl<'a> Balance<'a> {
    ghost use Rattle.std.specs.Prelude.{◌≡◌, ◌*◌, length};
    ghost use Rattle.inputs.specs.Code.{Ended};
    ghost use Rattle.start_box.specs.Sums.{row_sum, column_sum};
    ghost use Rattle.start_box.specs.Reach.{coefficients};
    ghost use Rattle.start_box.specs.Call.{begun};
    ghost use Rattle.start_box.specs.Code.{system_of, sums_of};

    #[tactic(auto, using(crate::proofs::Lines::row_line))]
    // The sums of the rows of |B|.
    fn row_sums(&self) -> LineSums<'a>
        ensures sums { sums_of result ≡ row_sum (coefficients (system_of self.now)) self.now.n }
        ensures count { result.n ≡ self.now.n }
    {
        LineSums {
            n: self.n,
            matrix: self.matrix,
            stride: self.n,
            step: 1,
        }
    }

    #[tactic(auto, using(crate::proofs::Lines::column_line))]
    // The sums of its columns.
    fn column_sums(&self) -> LineSums<'a>
        ensures sums { sums_of result ≡ column_sum (coefficients (system_of self.now)) self.now.n }
        ensures count { result.n ≡ self.now.n }
    {
        LineSums {
            n: self.n,
            matrix: self.matrix,
            stride: 1,
            step: self.n,
        }
    }

    #[tactic(auto, using(crate::proofs::Widen::begun_stops, crate::proofs::Reach::reach_within, outcome::proofs::Run::carried))]
    // The sum tests, the reach, and the right side widened by it.
    pub fn begin(&self, bounds: &mut [i64]) -> Result<(), Refusal>
        requires { length bounds.old ≡ 2 * self.now.n }
        ensures { Ended (begun (system_of self.now)) result bounds.old bounds.new }
    {
        let distance = self.reach()?;
        let around = BoxAround {
            n: self.n,
            right: self.right,
            distance,
        };
        around.write(bounds)
    }
}
