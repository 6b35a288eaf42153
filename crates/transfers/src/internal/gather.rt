// From the lent list of structs to records of four numbers, for which there is so much room.
ghost use Rattle.std.specs.Prelude.{◌≡◌, ◌++◌, ◌<◌, ◌≤◌, length, take, drop, Err, IsOk, IfErr};
ghost use Rattle.outcome.specs.declared.Refusal.TheVariants.{Length};
ghost use Rattle.outcome.specs.Run.{returned};
ghost use Rattle.inputs.specs.Tests.{both, sized};
ghost use Rattle.transfers.specs.Listing.{listing};
ghost use Rattle.transfers.specs.Call.{call_list};
ghost use Rattle.transfers.specs.Code.{records_of, of_way};

use crate::Transfer;
use crate::internal::calls::swept_records;
use inputs::internal::size;
use outcome::Refusal;
use sweep::Swept;
use sweep::internal::pass::Way;

// A list that is too long for them is refused before it is read: 1, or else 2 with place 1.
#[tactic(auto, unfolding(inputs::specs::Tests::both))]
pub fn few_enough(n: usize, count: usize) -> Result<(), Refusal>
    ensures ok { IsOk result → count ≤ 1_024 }
    ensures long { IfErr result (λ o. (1_024 < count) × (Err o ≡ both (sized n) (Err (Length 1)))) }
{
    if 1024 < count {
        size(n)?;
        return Err(Refusal::Length(1));
    }
    Ok(())
}

// The records, one after the other.
#[tactic(auto, using(crate::proofs::Gathered::put_more), unfolding(crate::specs::Code::records_of))]
pub fn gather(ts: &[Transfer], rs: &mut [[i64; 4]])
    requires { length ts.now ≤ length rs.old }
    ensures { rs.new ≡ records_of ts.now ++ drop (length ts.now) rs.old }
{
    // By index: of a slice that was written through iter_mut().zip(..) a proof knows the length alone.
    for (k, t) in ts.iter().enumerate() {
        rs[k] = (*t).into();
    }
}

// Sweeps from a list and b.
pub fn swept(
    n: usize,
    way: Way,
    ts: &[Transfer],
    b: &[i64],
    bounds: &mut [i64],
    allowed: usize,
) -> Swept
    ensures { returned result.outcome result.count bounds.new ≡
        call_list (listing n ts.now b.now) (of_way way allowed) bounds.old }
{
    if let Err(o) = few_enough(n, ts.len()) {
        return Swept {
            outcome: Err(o),
            count: 0,
        };
    }
    // An array of fixed size, since there is no heap.
    let mut values = [[0i64; 4]; 1024];
    gather(ts, &mut values);
    swept_records(n, way, &values[..ts.len()], b, bounds, allowed)
}
