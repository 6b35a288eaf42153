ghost use Rattle.std.specs.Prelude.{◌≡◌};
ghost use Rattle.sweep.specs.Calls.{sweep_call, symmetric_call};
ghost use Rattle.transfers.specs.Listing.{listing, transfers_of};
ghost use Rattle.transfers.specs.Call.{over_list, call_list};
ghost use Rattle.capi.specs.Flat.{call_of};

use crate::systems::KifwalebOutcome;
use sweep::internal::pass::Way;
use transfers::internal::calls::{eliminate_records, swept_records};

// Elimination from a list of transfers and b. A record is receiver, giver, lower and upper share: four numbers, as C has the struct in memory.
#[unsafe(no_mangle)]
pub extern "C" fn kifwaleb_eliminate_transfers(
    n: usize,
    transfers: &[[i64; 4]],
    b: &[i64],
    bounds: &mut [i64],
) -> KifwalebOutcome
    ensures { call_of result bounds.new ≡ over_list (listing n (transfers_of transfers.now) b.now) bounds.old }
{
    eliminate_records(n, transfers, b, bounds).into()
}

// The sweep call from a list of transfers and b.
#[unsafe(no_mangle)]
pub extern "C" fn kifwaleb_sweep_transfers(
    n: usize,
    transfers: &[[i64; 4]],
    b: &[i64],
    bounds: &mut [i64],
    allowed: usize,
) -> KifwalebOutcome
    ensures { call_of result bounds.new ≡
        call_list (listing n (transfers_of transfers.now) b.now) (sweep_call allowed) bounds.old }
{
    swept_records(n, Way::There, transfers, b, bounds, allowed).into()
}

// The sweep call there and back from a list of transfers and b.
#[unsafe(no_mangle)]
pub extern "C" fn kifwaleb_symmetric_sweep_transfers(
    n: usize,
    transfers: &[[i64; 4]],
    b: &[i64],
    bounds: &mut [i64],
    allowed: usize,
) -> KifwalebOutcome
    ensures { call_of result bounds.new ≡
        call_list (listing n (transfers_of transfers.now) b.now) (symmetric_call allowed) bounds.old }
{
    swept_records(n, Way::ThereAndBack, transfers, b, bounds, allowed).into()
}
