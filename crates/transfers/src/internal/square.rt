// The square that a list of records stands for.
ghost use Rattle.std.specs.Prelude.{◌≡◌, true, ◌-◌, ◌*◌, ◌<◌, ◌≤◌, nat_abs, length};
ghost use Rattle.transfers.specs.Listing.{is_component, both_components, place_of, transfers_of};
ghost use Rattle.transfers.specs.Code.{Filled, Entered};

use crate::Transfer;
use crate::internal::tests::{both_components, judged, share};
use inputs::internal::write;
use interval::internal::is_acceptable;
use outcome::Refusal;

// A component's row or column, from 0.
#[tactic(auto, unfolding(crate::specs::Listing::is_component))]
pub fn index(n: usize, v: i64) -> usize
    requires { is_component n v ≡ true }
    ensures { (result ≡ nat_abs v - 1) × (result < n) }
{
    v as usize - 1
}

// The position of a record's interval.
#[tactic(auto, using(inputs::proofs::Place::cell_before), unfolding(crate::specs::Listing::both_components, crate::specs::Listing::place_of))]
fn place(n: usize, t: Transfer) -> usize
    requires { (both_components n t ≡ true) × (n ≤ 32) }
    ensures { (result ≡ place_of n t) × (result < n * n) }
{
    let i = index(n, t.receiver);
    let j = index(n, t.giver);
    i * n + j
}

// Writes each record to its place, in one go with all its tests; stops at the first record that fails one.
fn fill(n: usize, rs: &[[i64; 4]], square: &mut [i64]) -> Option<()>
    requires { (n ≤ 32) × (2 * (n * n) ≤ length square.old) }
    ensures { Filled n (transfers_of rs.now) square.old result square.new }
{
    let mut next = 0;
    for r in rs {
        let t = Transfer::from(*r);
        if !both_components(n, t) {
            return None;
        }
        let p = place(n, t);
        let v = share(t);
        if p < next || !is_acceptable(v) {
            return None;
        }
        write(square, p, v);
        next = p + 1;
    }
    Some(())
}

// The records' tests; if they pass, the square of noughts at the beginning becomes that of the list.
pub fn enter(n: usize, rs: &[[i64; 4]], square: &mut [i64]) -> Result<(), Refusal>
    requires { (n ≤ 32) × (2 * (n * n) ≤ length square.old) }
    ensures { Entered n (transfers_of rs.now) square.old result square.new }
{
    match fill(n, rs, square) {
        Some(()) => Ok(()),
        None => judged(n, rs),
    }
}
