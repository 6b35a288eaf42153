ghost use Rattle.std.specs.Prelude.{◌≡◌, IfSome};
ghost use Rattle.interval.specs.Interval.{scale, rounded};
ghost use Rattle.wide_sum.specs.Wide.{held, held_both};
ghost use Rattle.wide_sum.specs.Code.{NearBoth, Handy};

use interval::Interval;
use wide_sum::internal::rounding::rounded;
use wide_sum::{Wide, WideInterval};

// A number in one word if it fits, as most sums do: one division rounds it, where a wide one takes two.
fn short(w: Wide) -> Option<i64>
    ensures { IfSome result (λ z. z ≡ held w) }
{
    let low = w.low.cast_signed();
    let sign = if low < 0 { -1 } else { 0 };
    if w.high == sign { Some(low) } else { None }
}

// Rounded outward to units, whatever its ends are.
pub fn rounded_any(v: WideInterval) -> Interval
    requires { NearBoth 1_000 v }
    ensures { (result ≡ rounded scale (held_both v)) × Handy result.lo × Handy result.hi }
{
    match (short(v.lo), short(v.hi)) {
        (Some(lo), Some(hi)) => rounded(Interval { lo, hi }),
        _ => v.rounded(),
    }
}
