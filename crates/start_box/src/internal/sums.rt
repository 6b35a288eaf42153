ghost use Rattle.std.specs.Prelude.{◌≡◌, true};
ghost use Rattle.interval.specs.Interval.{acceptable};
ghost use Rattle.start_box.specs.Sums.{magnitude};
ghost use Rattle.start_box.specs.Ready.{Square, Lines};

use inputs::internal::read;
use interval::Interval;

// The magnitude of an interval. Its ends are in sequence, so neither the lower end above 0 nor the upper end below 0 can be the greater one.
pub fn magnitude(v: Interval) -> i64
    requires { acceptable v ≡ true }
    ensures { result ≡ magnitude v }
{
    (-v.lo).max(v.hi)
}

// The sums of the rows or of the columns of a matrix of magnitudes: line i begins at i * stride and goes on in steps of step.
#[derive(Clone, Copy)]
pub struct LineSums<'a> {
    pub n: usize,
    pub matrix: &'a [i64],
    pub stride: usize,
    pub step: usize,
    ghost square: { Square n matrix.now },
    ghost lines: { Lines n stride step },
}

impl LineSums<'_> {
    ghost use Rattle.std.specs.Prelude.{◌<◌, pos};
    ghost use Rattle.start_box.specs.Sums.{all_below_one, greatest};
    ghost use Rattle.start_box.specs.Code.{sums_of};

    #[tactic(auto, using(crate::proofs::Lines::line_small, crate::proofs::Lines::line_room), unfolding(crate::specs::Code::line_sum, integer::specs::Total::total))]
    // The sum of one line.
    pub fn at(&self, i: usize) -> i64
        requires { i < self.now.n }
        ensures { result ≡ sums_of self.now i }
    {
        let p = i * self.stride;
        let mut sum: i64 = 0;
        for k in 0..self.n {
            let v = read(self.matrix, p + k * self.step);
            sum += magnitude(v);
        }
        sum
    }

    // Whether every sum is below one.
    pub fn all_below_one(&self) -> bool
        ensures { result ≡ all_below_one (sums_of self.now) self.now.n 0 }
    {
        (0..self.n).all(|i| self.at(i) < Interval::SCALE)
    }

    #[tactic(auto, using(crate::proofs::Sums::greatest_end, crate::proofs::Sums::greatest_go, integer::proofs::Extremes::max_is))]
    // The greatest sum. None is below 0, from which the loop starts.
    pub fn greatest(&self) -> i64
        ensures { result ≡ greatest (sums_of self.now) self.now.n 0 (pos 0) }
    {
        let mut most: i64 = 0;
        for i in 0..self.n {
            let s = self.at(i);
            most = most.max(s);
        }
        most
    }
}
