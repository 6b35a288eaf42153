// The sum of products of shares that are tested on the way, since a state may hold anything: none where a share is no interval. They are no Products before that, whose shares are all intervals.
ghost use Rattle.std.specs.Prelude.{◌≡◌, true, ◌+◌, ◌*◌, ◌≤◌, ◌<◌, length};
ghost use Rattle.inputs.specs.Code.{Sound};
ghost use Rattle.wide_sum.specs.Code.{NearBoth};
ghost use Rattle.rows.specs.Word.{NoneBelow};
ghost use Rattle.half_rows.specs.Code.{SumAbove, SumTested};

use inputs::internal::{intervals, read};
use interval::Interval;
use interval::internal::is_acceptable;
use rows::internal::Products;
use rows::internal::word::{is_modest, next_above};
use wide_sum::WideInterval;

// acc and the product of the one share of g. any_sum of one share says the same, but half passes then take up to a quarter more instructions.
pub fn next_single(acc: WideInterval, g: &[i64], x: &[i64], q: usize) -> Option<WideInterval>
    requires near_both { NearBoth 1_000 acc }
    requires g_len { (length g.now ≡ 2) × Sound x.now × (2 * (q + 1) ≤ length x.now) }
    ensures { SumTested acc g.now 0 x.now q 1 result }
{
    if !is_acceptable(read(g, 0)) {
        return None;
    }
    let single = Products {
        m: g,
        p: 0,
        x,
        q,
        d: 1,
    };
    Some(single.next_one(acc, 0))
}

// acc and the d products of the shares of h from position p on with x from position q on, if all shares are modest. Else the answer says nothing.
fn sum_above(
    acc: WideInterval,
    h: &[i64],
    p: usize,
    x: &[i64],
    q: usize,
    d: usize,
) -> Option<WideInterval>
    requires near_both { NearBoth 900 acc × NoneBelow x.now }
    requires d_in_bounds { (2 * (p + d) ≤ length h.now) × Sound x.now × (2 * (q + d) ≤ length x.now) × (d ≤ 32) }
    ensures { SumAbove acc h.now p x.now q d result }
{
    if d < 1 {
        return Some(acc);
    }
    let mut sum = Interval::ZERO;
    for j in 0..d {
        let a = read(h, p + j);
        if !is_modest(a) {
            return None;
        }
        sum = next_above(sum, a, read(x, q + j));
    }
    Some(acc.raised(sum))
}

// acc and the d products of the shares of g, of any sign.
#[inline(always)]
fn any_sum(acc: WideInterval, g: &[i64], x: &[i64], q: usize, d: usize) -> Option<WideInterval>
    requires near_both { NearBoth 900 acc }
    requires g_len { (length g.now ≡ 2 * d) × Sound x.now × (2 * (q + d) ≤ length x.now) × (d ≤ 32) }
    ensures { SumTested acc g.now 0 x.now q d result }
{
    intervals(g, d, 0).ok()?;
    let products = Products {
        m: g,
        p: 0,
        x,
        q,
        d,
    };
    Some(products.added_to(acc))
}

// The same, after sum_above. A call of its own: it keeps the jumps out of that loop short, and by far ones half passes of shares that are not negative take a fifth more time.
#[inline(never)]
fn any_sum_after(
    acc: WideInterval,
    g: &[i64],
    x: &[i64],
    q: usize,
    d: usize,
) -> Option<WideInterval>
    requires near_both { NearBoth 900 acc }
    requires g_len { (length g.now ≡ 2 * d) × Sound x.now × (2 * (q + d) ≤ length x.now) × (d ≤ 32) }
    ensures { SumTested acc g.now 0 x.now q d result }
{
    any_sum(acc, g, x, q, d)
}

// acc and the d products of the shares of h from position p on with x from position q on; above says that no component is below 0.
pub fn tested_sum(
    above: bool,
    acc: WideInterval,
    h: &[i64],
    p: usize,
    x: &[i64],
    q: usize,
    d: usize,
) -> Option<WideInterval>
    requires near_both { NearBoth 900 acc × (above ≡ true → NoneBelow x.now) }
    requires d_in_bounds { (2 * (p + d) ≤ length h.now) × Sound x.now × (2 * (q + d) ≤ length x.now) × (d ≤ 32) }
    ensures { SumTested acc h.now p x.now q d result }
{
    if !above {
        return any_sum(acc, &h[2 * p..2 * p + 2 * d], x, q, d);
    }
    if let Some(s) = sum_above(acc, h, p, x, q, d) {
        return Some(s);
    }
    // Taken apart and not handed on: else half passes with shares below 0 take a tenth more time.
    match any_sum_after(acc, &h[2 * p..2 * p + 2 * d], x, q, d) {
        Some(s) => Some(s),
        None => None,
    }
}
