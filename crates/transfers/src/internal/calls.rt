// The calls over records as four numbers each.
ghost use Rattle.std.specs.Prelude.{◌≡◌, true, ◌*◌, ◌≤◌, pos, length, ◌≤ℤ◌};
ghost use Rattle.outcome.specs.Run.{returned, answered};
ghost use Rattle.inputs.specs.Code.{Sound};
ghost use Rattle.rows.specs.Word.{NoneBelow};
ghost use Rattle.transfers.specs.Listing.{listing, transfers_of};
ghost use Rattle.transfers.specs.Call.{over_list, call_list};
ghost use Rattle.transfers.specs.Code.{of_way};
ghost use Rattle.transfers.specs.Rows.{Tested};

use crate::internal::balance::Listed;
use crate::internal::found::{Ends, tried_rows};
use crate::internal::in_rows::Rows;
use crate::internal::square::enter;
use crate::internal::tests::sizes;
use elimination::internal::solve::solve_formed;
use inputs::internal::copy::fill;
use inputs::internal::intervals;
use interval::Interval;
use outcome::Refusal;
use rows::internal::word::all_above;
use sweep::Swept;
use sweep::internal::calls::run;
use sweep::internal::pass::Way;
use sweep::internal::tests::budget;

// Elimination from records and b.
pub fn eliminate_records(
    n: usize,
    rs: &[[i64; 4]],
    b: &[i64],
    bounds: &mut [i64],
) -> Result<(), Refusal>
    ensures { answered result bounds.new ≡ over_list (listing n (transfers_of rs.now) b.now) bounds.old }
{
    sizes(n, rs, b, bounds)?;
    // An array of fixed size, since there is no heap.
    let mut t = [0i64; 2112];
    enter(n, rs, &mut t)?;
    intervals(b, n, rs.len())?;
    fill(&mut t, b, 2 * (n * n));
    solve_formed(n, &mut t, bounds)
}

// The tests before the sweeps; where the rows end, and a hull of the shares.
fn tested(
    n: usize,
    rs: &[[i64; 4]],
    b: &[i64],
    bounds: &[i64],
    allowed: usize,
) -> Result<Ends, Refusal>
    ensures { Tested (listing n (transfers_of rs.now) b.now) allowed bounds.now result }
{
    sizes(n, rs, b, bounds)?;
    budget(allowed)?;
    let ends = tried_rows(n, rs)?;
    intervals(b, n, rs.len())?;
    intervals(bounds, n, rs.len() + n)?;
    Ok(ends)
}

// Whether no share with this hull is below 0, and no component.
fn are_above(h: Interval, x: &[i64], n: usize) -> bool
    requires { (length x.now ≡ 2 * n) × (n ≤ 32) × Sound x.now }
    ensures { result ≡ true → (pos 0 ≤ℤ h.lo) × NoneBelow x.now }
{
    0 <= h.lo && all_above(x, n)
}

// Sweeps from records and b.
pub fn swept_records<'a>(
    n: usize,
    way: Way,
    rs: &'a [[i64; 4]],
    b: &'a [i64],
    bounds: &mut [i64],
    allowed: usize,
) -> Swept
    ensures { returned result.outcome result.count bounds.new ≡
        call_list (listing n (transfers_of rs.now) b.now) (of_way way allowed) bounds.old }
{
    match tested(n, rs, b, bounds, allowed) {
        Ok(ends) => {
            let rows = Rows {
                n,
                records: rs,
                ends: &ends.at,
                hull: ends.hull,
            };
            let listed = Listed {
                rows,
                right: b,
                above: are_above(ends.hull, bounds, n),
            };
            run(&listed, Some(way), bounds, allowed)
        }
        Err(o) => Swept {
            outcome: Err(o),
            count: 0,
        },
    }
}
