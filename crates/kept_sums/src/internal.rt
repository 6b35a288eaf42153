ghost use Rattle.std.specs.Prelude.{◌≡◌, true, ◌+◌, ◌*◌, ◌<◌, length};
ghost use Rattle.wide_sum.specs.Wide.{held, held_both};
ghost use Rattle.wide_sum.specs.Code.{Near, NearBoth};
ghost use Rattle.kept_sums.specs.Kept.{end_at, put_end, sum_at, put_sum, end_ready, sum_ready};

use wide_sum::{Wide, WideInterval};

// From −8 to 8 is the high number of an end.
const LEAST: i64 = -8;

const MOST: i64 = 8;

#[tactic(auto, unfolding(crate::specs::Kept::end_ready))]
// Whether the two numbers from p on can be an end.
fn end_ready(s: &[i64], p: usize) -> bool
    requires { p + 1 < length s.now }
    ensures { result ≡ end_ready s.now p }
{
    LEAST <= s[p] && s[p] <= MOST
}

#[tactic(auto, unfolding(crate::specs::Kept::sum_ready))]
// Whether the numbers at position i can be a sum.
pub fn sum_ready(s: &[i64], i: usize) -> bool
    requires { 4 * i + 3 < length s.now }
    ensures { result ≡ sum_ready s.now i }
{
    let p = 4 * i;
    end_ready(s, p) && end_ready(s, p + 2)
}

// The end from p on: its low number is kept less 2^63.
fn read_end(s: &[i64], p: usize) -> Wide
    requires { (p + 1 < length s.now) × (end_ready s.now p ≡ true) }
    ensures { (held result ≡ end_at s.now p) × Near 8 result }
{
    Wide {
        high: s[p],
        low: s[p + 1].abs_diff(i64::MIN),
    }
}

// The sum at position i.
pub fn read_sum(s: &[i64], i: usize) -> WideInterval
    requires { (4 * i + 3 < length s.now) × (sum_ready s.now i ≡ true) }
    ensures { (held_both result ≡ sum_at s.now i) × NearBoth 8 result }
{
    let p = 4 * i;
    WideInterval {
        lo: read_end(s, p),
        hi: read_end(s, p + 2),
    }
}

// w becomes the end from p on.
fn write_end(s: &mut [i64], p: usize, w: Wide)
    requires { (p + 1 < length s.old) × Near 1_000 w }
    ensures { s.new ≡ put_end s.old p (held w) }
{
    s[p] = w.high;
    s[p + 1] = i64::MIN.saturating_add_unsigned(w.low);
}

// v becomes the sum at position i.
pub fn write_sum(s: &mut [i64], i: usize, v: WideInterval)
    requires { (4 * i + 3 < length s.old) × NearBoth 1_000 v }
    ensures { s.new ≡ put_sum s.old i (held_both v) }
{
    let p = 4 * i;
    write_end(s, p, v.lo);
    write_end(s, p + 2, v.hi);
}
