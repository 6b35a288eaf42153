ghost use Rattle.std.specs.Prelude.{◌≡◌, pos, ◌≤ℤ◌};
ghost use Rattle.interval.specs.Interval.{zero};
ghost use Rattle.wide_sum.specs.Wide.{held_both};
ghost use Rattle.wide_sum.specs.Code.{Near, NearBoth, Raised, Added, AddedBoth, Joined, JoinedBoth};

use crate::{Wide, WideInterval};
use interval::Interval;

impl Wide {
    // self and p more, with the carry.
    fn raised(self, p: u64) -> Wide
        requires { Near 1_000 self }
        ensures { Raised self p result }
    {
        let low = self.low.wrapping_add(p);
        let high = self.high;
        if low < p {
            return Wide {
                high: high + 1,
                low,
            };
        }
        Wide { high, low }
    }

    // self and p. The bits of a p below 0 are those of 2^64 + p, and 2^64 goes off again.
    fn added(self, p: i64) -> Wide
        requires { Near 1_000 self }
        ensures { Added self p result }
    {
        let v = self.raised(p.cast_unsigned());
        if p < 0 {
            return Wide {
                high: v.high - 1,
                low: v.low,
            };
        }
        v
    }

    // self and w.
    fn joined(self, w: Wide) -> Wide
        requires { Near 900 self × Near 90 w }
        ensures { Joined self w result }
    {
        let u = self.raised(w.low);
        Wide {
            high: u.high + w.high,
            low: u.low,
        }
    }
}

impl WideInterval {
    // Nought.
    pub fn nought() -> WideInterval
        ensures { (held_both result ≡ zero) × NearBoth 0 result }
    {
        WideInterval {
            lo: Wide { high: 0, low: 0 },
            hi: Wide { high: 0, low: 0 },
        }
    }

    // self and v, whose ends are not below 0.
    pub fn raised(self, v: Interval) -> WideInterval
        requires near_both { NearBoth 1_000 self }
        requires pos_bound { (pos 0 ≤ℤ v.lo) × (pos 0 ≤ℤ v.hi) }
        ensures { AddedBoth self v result }
    {
        WideInterval {
            lo: self.lo.raised(v.lo as u64),
            hi: self.hi.raised(v.hi as u64),
        }
    }

    // self and v.
    pub fn added(self, v: Interval) -> WideInterval
        requires { NearBoth 1_000 self }
        ensures { AddedBoth self v result }
    {
        WideInterval {
            lo: self.lo.added(v.lo),
            hi: self.hi.added(v.hi),
        }
    }

    // self and w, of which both are beyond 64 bits.
    pub fn joined(self, w: WideInterval) -> WideInterval
        requires { NearBoth 900 self × NearBoth 90 w }
        ensures { JoinedBoth self w result }
    {
        WideInterval {
            lo: self.lo.joined(w.lo),
            hi: self.hi.joined(w.hi),
        }
    }
}
