// The tests of a list of records, each as four numbers: receiver, giver, lower and upper share. n and the records stay two parameters until they stand in rows: n ≤ 32 is all that is known of them.
ghost use Rattle.std.specs.Prelude.{◌≡◌, ℕ, Bool, ◌-◌, ◌<◌, ◌≤◌, length};
ghost use Rattle.outcome.specs.declared.Refusal.{Refusal};
ghost use Rattle.transfers.specs.Listing.{listing, nth, share, sizes, is_component, both_components, tried, known, follows, ordered, shares, transfers_of};
ghost use Rattle.transfers.specs.Code.{judgement};

use crate::Transfer;
use inputs::Slice;
use inputs::internal::{lengths, size};
use interval::Interval;
use interval::internal::is_acceptable;
use outcome::Refusal;

// The record at k.
#[tactic(auto, using(crate::proofs::Records::nth_transfers))]
pub fn record(rs: &[[i64; 4]], k: usize) -> Transfer
    requires { k < length rs.now }
    ensures { result ≡ nth (transfers_of rs.now) k }
{
    rs[k].into()
}

// The interval of a record.
pub fn share(t: Transfer) -> Interval
    ensures { result ≡ share t }
{
    Interval { lo: t.lo, hi: t.hi }
}

// Tests 1 and 2, of n, the number of records and the lengths of right side and box.
#[tactic(auto, using(crate::proofs::Records::length_transfers), unfolding(crate::specs::Listing::sizes, inputs::specs::Tests::both, inputs::specs::Tests::need, inputs::specs::Tests::sized))]
pub fn sizes(n: usize, rs: &[[i64; 4]], right: &[i64], bounds: &[i64]) -> Result<(), Refusal>
    ensures { result ≡ sizes (listing n (transfers_of rs.now) right.now) (length bounds.now) }
{
    size(n)?;
    if 1024 < rs.len() {
        return Err(Refusal::Length(1));
    }
    lengths(&[
        Slice {
            place: 2,
            held: right.len(),
            wanted: 2 * n,
        },
        Slice {
            place: 3,
            held: bounds.len(),
            wanted: 2 * n,
        },
    ])
}

// Whether a vat is from 1 to n.
#[tactic(auto, unfolding(crate::specs::Listing::is_component))]
fn is_component(n: usize, v: i64) -> bool
    requires { n ≤ 32 }
    ensures { result ≡ is_component n v }
{
    1 <= v && v <= n as i64
}

// Whether receiver and giver are from 1 to n.
#[tactic(auto, unfolding(crate::specs::Listing::both_components))]
pub fn both_components(n: usize, t: Transfer) -> bool
    requires { n ≤ 32 }
    ensures { result ≡ both_components n t }
{
    is_component(n, t.receiver) && is_component(n, t.giver)
}

// A test of the records from one place on; it fails with the first record that does not meet it.
fn tried<M: Fn(usize) -> bool, R: Fn(usize) -> Refusal>(
    from: usize,
    count: usize,
    meets: M,
    refusal: R,
) -> Result<(), Refusal>
    requires meets { (k : ℕ) → from ≤ k → k < count → M.pre meets k }
    requires refusal { R.IsAlwaysCallable refusal }
    ensures { (p : ℕ → Bool) (o : ℕ → Refusal)
        → ((k : ℕ) (b : Bool) → from ≤ k → k < count → M.post meets k b → b ≡ p k)
        → ((k : ℕ) (r : Refusal) → R.post refusal k r → r ≡ o k)
        → result ≡ tried p o (count - from) from }
{
    for k in from..count {
        if !meets(k) {
            return Err(refusal(k));
        }
    }
    Ok(())
}

// Test 11, of all records.
fn known(n: usize, rs: &[[i64; 4]]) -> Result<(), Refusal>
    requires { n ≤ 32 }
    ensures { result ≡ known n (transfers_of rs.now) (length rs.now) 0 }
{
    tried(
        0,
        rs.len(),
        |k| both_components(n, record(rs, k)),
        Refusal::OutOfMatrix,
    )
}

// Whether t stands after s.
#[tactic(auto, unfolding(crate::specs::Listing::follows))]
fn follows(s: Transfer, t: Transfer) -> bool
    ensures { result ≡ follows s t }
{
    (s.receiver, s.giver) < (t.receiver, t.giver)
}

// Test 12, of all records but the first.
fn ordered(rs: &[[i64; 4]]) -> Result<(), Refusal>
    ensures { result ≡ ordered (transfers_of rs.now) (length rs.now - 1) 1 }
{
    tried(
        1,
        rs.len(),
        |k| follows(record(rs, k - 1), record(rs, k)),
        Refusal::OutOfOrder,
    )
}

// Test 3, of all records.
fn shares(rs: &[[i64; 4]]) -> Result<(), Refusal>
    ensures { result ≡ shares (transfers_of rs.now) (length rs.now) 0 }
{
    tried(
        0,
        rs.len(),
        |k| is_acceptable(share(record(rs, k))),
        Refusal::Ends,
    )
}

// Tests 11, 12 and 3 of the records, one after the other.
#[tactic(auto, using(crate::proofs::Records::length_transfers), unfolding(crate::specs::Code::judgement, crate::specs::Listing::entries, inputs::specs::Tests::both))]
pub fn judged(n: usize, rs: &[[i64; 4]]) -> Result<(), Refusal>
    requires { n ≤ 32 }
    ensures { result ≡ judgement n (transfers_of rs.now) }
{
    known(n, rs)?;
    ordered(rs)?;
    shares(rs)
}
