ghost use Rattle.std.specs.Prelude.{◌≡◌, true};
ghost use Rattle.interval.specs.Interval.{within};
ghost use Rattle.start_box.specs.Ready.{Right};

use inputs::internal::{read, write};
use interval::Interval;
use interval::internal::in_range;
use outcome::Refusal;

// The right side widened by the reach.
#[derive(Clone, Copy)]
pub struct BoxAround<'a> {
    pub n: usize,
    pub right: &'a [i64],
    pub distance: i64,
    ghost tested: { Right n right.now },
    ghost in_range: { within distance ≡ true },
}

impl BoxAround<'_> {
    ghost use Rattle.std.specs.Prelude.{◌*◌, ◌<◌, length};
    ghost use Rattle.inputs.specs.Place.{numbers};
    ghost use Rattle.inputs.specs.Code.{Ended};
    ghost use Rattle.start_box.specs.Call.{all_in_range, box_around};
    ghost use Rattle.start_box.specs.Code.{components_of};

    fn component(&self, i: usize) -> Interval
        requires { i < self.now.n }
        ensures { result ≡ components_of self.now i }
    {
        let v = read(self.right, i);
        let lo = v.lo - self.distance;
        let hi = v.hi + self.distance;
        Interval { lo, hi }
    }

    fn all_in_range(&self) -> bool
        ensures { result ≡ all_in_range (components_of self.now) self.now.n 0 }
    {
        (0..self.n).all(|i| in_range(self.component(i)))
    }

    #[tactic(auto, using(crate::proofs::Widen::halfway_end))]
    fn write_all(&self, bounds: &mut [i64])
        requires { length bounds.old ≡ 2 * self.now.n }
        ensures { bounds.new ≡ numbers (components_of self.now) self.now.n 0 }
    {
        for i in 0..self.n {
            let v = self.component(i);
            write(bounds, i, v);
        }
    }

    #[tactic(auto, using(crate::proofs::Widen::around_out, crate::proofs::Widen::around_is))]
    // Into the lent box, if each end is in the range.
    pub fn write(&self, bounds: &mut [i64]) -> Result<(), Refusal>
        requires { length bounds.old ≡ 2 * self.now.n }
        ensures { Ended (box_around self.now.n self.now.right.now self.now.distance) result bounds.old bounds.new }
    {
        if !self.all_in_range() {
            return Err(Refusal::OutOfRange(0));
        }
        self.write_all(bounds);
        Ok(())
    }
}
