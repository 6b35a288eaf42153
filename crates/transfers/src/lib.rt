#![tactic(auto)]

pub mod internal;

ghost use Rattle.std.specs.Prelude.{◌≡◌};
ghost use Rattle.outcome.specs.Run.{returned, answered};
ghost use Rattle.sweep.specs.Calls.{sweep_call, symmetric_call};
ghost use Rattle.transfers.specs.Listing.{listing, transfer_of, numbers_of};
ghost use Rattle.transfers.specs.Call.{over_list, call_list};

use crate::internal::calls::eliminate_records;
use crate::internal::gather::{few_enough, gather, swept};
use outcome::Refusal;
use sweep::Swept;
use sweep::internal::pass::Way;

// A transfer: a share of what passes through the giving component goes on into the receiving one. Document 02, A7: receiving vat, giving vat, lower and upper share.
#[repr(C)]
#[derive(Clone, Copy, Debug, PartialEq, Eq)]
pub struct Transfer {
    pub receiver: i64,
    pub giver: i64,
    pub lo: i64,
    pub hi: i64,
}

// Callers in C lend a record as four numbers, in the order of the fields.
impl From<[i64; 4]> for Transfer {
    ghost from_gives = { λ r t. t ≡ transfer_of r };

    #[tactic(auto, unfolding(crate::specs::Listing::transfer_of))]
    fn from(r: [i64; 4]) -> Transfer {
        let [receiver, giver, lo, hi] = r;
        Transfer {
            receiver,
            giver,
            lo,
            hi,
        }
    }
}

impl From<Transfer> for [i64; 4] {
    ghost from_gives = { λ t r. r ≡ numbers_of t };

    fn from(t: Transfer) -> [i64; 4] {
        [t.receiver, t.giver, t.lo, t.hi]
    }
}

// Eliminates from a list of transfers and b: bounds on the solutions of x = B·x + b, in the lent box.
pub fn eliminate_transfers(
    n: usize,
    ts: &[Transfer],
    b: &[i64],
    bounds: &mut [i64],
) -> Result<(), Refusal>
    ensures { answered result bounds.new ≡ over_list (listing n ts.now b.now) bounds.old }
{
    few_enough(n, ts.len())?;
    // An array of fixed size, since there is no heap.
    let mut values = [[0i64; 4]; 1024];
    gather(ts, &mut values);
    eliminate_records(n, &values[..ts.len()], b, bounds)
}

// Tightens the lent box by at most so many sweeps, from a list of transfers and b.
pub fn sweep_transfers(
    n: usize,
    ts: &[Transfer],
    b: &[i64],
    bounds: &mut [i64],
    allowed: usize,
) -> Swept
    ensures { returned result.outcome result.count bounds.new ≡
        call_list (listing n ts.now b.now) (sweep_call allowed) bounds.old }
{
    swept(n, Way::There, ts, b, bounds, allowed)
}

// Tightens the lent box by at most so many passes there and back, each counted as one sweep, from a list of transfers and b. Two names for two ways, as for the square.
pub fn symmetric_sweep_transfers(
    n: usize,
    ts: &[Transfer],
    b: &[i64],
    bounds: &mut [i64],
    allowed: usize,
) -> Swept
    ensures { returned result.outcome result.count bounds.new ≡
        call_list (listing n ts.now b.now) (symmetric_call allowed) bounds.old }
{
    swept(n, Way::ThereAndBack, ts, b, bounds, allowed)
}
