// The products of records with the components of their givers.
ghost use Rattle.std.specs.Prelude.{◌≡◌, true, ◌+◌, ◌*◌, ◌<◌, length};
ghost use Rattle.inputs.specs.Code.{Sound};
ghost use Rattle.transfers.specs.Listing.{nth, is_component, transfers_of};
ghost use Rattle.transfers.specs.Rows.{Above, BothAbove, Factors, Pair, component, term, two_terms};

use crate::internal::in_rows::Sums;
use crate::internal::square::index;
use crate::internal::tests::{record, share};
use inputs::internal::read;
use interval::Interval;
use interval::internal::product::{exact_product, product_above};
use interval::internal::sum as add;

// The time of a sweep is spent in these. That they become one function, as the marks ask, saves up to a quarter of it. They ask what a product needs of its own record, and nothing of the rest of the list; Sums, below, knows it of each record.

// The component of the record k's giver.
#[inline(always)]
fn component(n: usize, rs: &[[i64; 4]], x: &[i64], k: usize) -> Interval
    requires k_in_bounds { (k < length rs.now) × (is_component n (nth (transfers_of rs.now) k).giver ≡ true) }
    requires x_len { length x.now ≡ 2 * n }
    ensures { result ≡ component (transfers_of rs.now) x.now k }
{
    let t = record(rs, k);
    read(x, index(n, t.giver))
}

// The product of the record k with the component of its giver; above says that neither is below 0. The signs of the component are looked at first, as in a row of a matrix.
#[tactic(auto, using(interval::proofs::Exchanged::exchanged), unfolding(crate::specs::Rows::term))]
#[inline(always)]
pub fn term(n: usize, above: bool, rs: &[[i64; 4]], x: &[i64], k: usize) -> Interval
    requires k_in_bounds { (k < length rs.now) × Factors n (transfers_of rs.now) x.now above k }
    requires x_len { (length x.now ≡ 2 * n) × Sound x.now }
    ensures { result ≡ term (transfers_of rs.now) x.now k }
{
    let a = share(record(rs, k));
    let b = component(n, rs, x, k);
    if above {
        return product_above(a, b);
    }
    exact_product(b, a)
}

// The products of the records k and k + 1 together, which fit one word.
#[tactic(auto, unfolding(crate::specs::Rows::two_terms))]
#[inline(always)]
pub fn two(n: usize, above: bool, rs: &[[i64; 4]], x: &[i64], k: usize) -> Interval
    requires k_in_bounds { (k + 1 < length rs.now) × Pair n (transfers_of rs.now) x.now above k }
    requires x_len { (length x.now ≡ 2 * n) × Sound x.now }
    ensures { result ≡ two_terms (transfers_of rs.now) x.now k }
{
    add(term(n, above, rs, x, k), term(n, above, rs, x, k + 1))
}

// Whether neither the share of the record k nor its component is below 0.
#[inline(always)]
fn is_above(n: usize, rs: &[[i64; 4]], x: &[i64], k: usize) -> bool
    requires k_in_bounds { (k < length rs.now) × (is_component n (nth (transfers_of rs.now) k).giver ≡ true) }
    requires x_len { length x.now ≡ 2 * n }
    ensures { result ≡ true → Above (transfers_of rs.now) x.now k }
{
    0 <= component(n, rs, x, k).lo && 0 <= share(record(rs, k)).lo
}

// Whether nothing of the records k and k + 1 is below 0; above says so.
#[inline(always)]
pub fn both_above(n: usize, above: bool, rs: &[[i64; 4]], x: &[i64], k: usize) -> bool
    requires k_in_bounds { (k + 1 < length rs.now) × Pair n (transfers_of rs.now) x.now above k }
    requires x_len { length x.now ≡ 2 * n }
    ensures { result ≡ true → Pair n (transfers_of rs.now) x.now true k }
{
    above || (is_above(n, rs, x, k) && is_above(n, rs, x, k + 1))
}

// Of a list that stands in rows.
impl Sums<'_> {
    // The product of the record k.
    #[inline(always)]
    pub(crate) fn term(&self, above: bool, k: usize) -> Interval
        requires k_in_bounds { k < length self.now.rows.records.now }
        requires signs { above ≡ true → Above (transfers_of self.now.rows.records.now) self.now.x.now k }
        ensures { result ≡ term (transfers_of self.now.rows.records.now) self.now.x.now k }
    {
        term(self.rows.n, above, self.rows.records, self.x, k)
    }

    // The products of the records k and k + 1 together.
    #[inline(always)]
    pub(crate) fn two(&self, above: bool, k: usize) -> Interval
        requires k_in_bounds { k + 1 < length self.now.rows.records.now }
        requires signs { above ≡ true → BothAbove (transfers_of self.now.rows.records.now) self.now.x.now k }
        ensures { result ≡ two_terms (transfers_of self.now.rows.records.now) self.now.x.now k }
    {
        two(self.rows.n, above, self.rows.records, self.x, k)
    }

    // Whether nothing of the records k and k + 1 is below 0; above says so.
    #[inline(always)]
    pub(crate) fn both_above(&self, above: bool, k: usize) -> bool
        requires k_in_bounds { k + 1 < length self.now.rows.records.now }
        requires signs { above ≡ true → BothAbove (transfers_of self.now.rows.records.now) self.now.x.now k }
        ensures { result ≡ true → BothAbove (transfers_of self.now.rows.records.now) self.now.x.now k }
    {
        both_above(self.rows.n, above, self.rows.records, self.x, k)
    }
}
