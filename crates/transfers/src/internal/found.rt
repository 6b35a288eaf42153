// Where the rows of a list end: found once, with all tests of the records.
ghost use Rattle.std.specs.Prelude.{◌≡◌, true, ◌+◌, ◌≤◌, ◌<◌, pos, length, ◌≤ℤ◌};
ghost use Rattle.transfers.specs.Listing.{transfers_of};
ghost use Rattle.transfers.specs.Rows.{hull, Short, Later, RowFound, AllRows, Told};

use crate::Transfer;
use crate::internal::tests::{judged, record, share};
use interval::Interval;
use interval::internal::in_range;
use outcome::Refusal;

// A row that was found: the place after its last record, the columns that it has passed, and a hull of all shares so far.
#[derive(Clone, Copy, Debug, PartialEq, Eq)]
pub struct Row {
    pub end: usize,
    pub columns: usize,
    pub hull: Interval,
}

// Where the rows of a list end, as Rows has it, and a hull of all shares.
#[derive(Clone, Copy, Debug, PartialEq, Eq)]
pub struct Ends {
    pub at: [usize; 33],
    pub hull: Interval,
}

// Whether a record is of row i.
fn is_in_row(i: usize, t: Transfer) -> bool
    requires { i < 32 }
    ensures { (result ≡ true → t.receiver ≡ pos (i + 1)) × (t.receiver ≡ pos (i + 1) → result ≡ true) }
{
    t.receiver == i as i64 + 1
}

// Whether a record can be the next one of a row that has passed so many columns.
#[tactic(auto, using(crate::proofs::Component::later, crate::proofs::Component::later_tested))]
fn goes_on(columns: usize, t: Transfer) -> bool
    requires { columns ≤ 9_223_372_036_854_775_807 }
    ensures { (result ≡ true → Later columns t.giver × (t.lo ≤ℤ t.hi)) × (Later columns t.giver → t.lo ≤ℤ t.hi → result ≡ true) }
{
    (columns as i64) < t.giver && t.lo <= t.hi
}

// The least interval that holds both.
#[tactic(auto, unfolding(crate::specs::Rows::hull, integer::specs::Extremes::minimum, integer::specs::Extremes::maximum))]
fn hull(h: Interval, v: Interval) -> Interval
    ensures { result ≡ hull h v }
{
    Interval {
        lo: h.lo.min(v.lo),
        hi: h.hi.max(v.hi),
    }
}

// The records of row i, which begin at from, after shares with the hull held. The last column and the hull are left to be tested once, after all records.
fn row_end(n: usize, rs: &[[i64; 4]], i: usize, from: usize, held: Interval) -> Option<Row>
    requires { (n ≤ 32) × (i < n) × (from ≤ length rs.now) }
    ensures { RowFound n (transfers_of rs.now) i held from result }
{
    let mut row = Row {
        end: from,
        columns: 0,
        hull: held,
    };
    // By place: by an iterator over the rest of the list it takes up to a third more time.
    for k in from..rs.len() {
        let t = record(rs, k);
        if !is_in_row(i, t) {
            return Some(row);
        }
        if !goes_on(row.columns, t) {
            return None;
        }
        row = Row {
            end: k + 1,
            columns: t.giver as usize,
            hull: hull(row.hull, share(t)),
        };
    }
    Some(row)
}

// Where the rows end, one after the other; row i begins where the row before it ends. A hull of the shares, unless a record fails a test.
fn find_rows(n: usize, rs: &[[i64; 4]]) -> Option<Ends>
    requires { n ≤ 32 }
    ensures { AllRows n (transfers_of rs.now) result }
{
    // An array of fixed size, since there is no heap.
    let mut ends = [0usize; 33];
    let mut from = 0;
    let mut all = Interval::ZERO;
    for i in 0..n {
        let r = row_end(n, rs, i, from, all)?;
        if n < r.columns || !in_range(r.hull) {
            return None;
        }
        from = r.end;
        all = r.hull;
        ends[i + 1] = from;
    }
    if from < rs.len() {
        return None;
    }
    Some(Ends {
        at: ends,
        hull: all,
    })
}

// All tests of the records: the list stands in rows, with this hull of its shares, or one of the tests fails. They are tried one after the other only then.
pub fn tried_rows(n: usize, rs: &[[i64; 4]]) -> Result<Ends, Refusal>
    requires { n ≤ 32 }
    ensures { Told n (transfers_of rs.now) result }
{
    match find_rows(n, rs) {
        Some(ends) => Ok(ends),
        None => Err(judged(n, rs).unwrap_err()),
    }
}

// Whether shares with this hull can be summed in one word.
#[tactic(auto, using(crate::proofs::Short::short_is))]
pub fn is_short(h: Interval) -> bool
    ensures { result ≡ true → Short h }
{
    -134_217_728 <= h.lo && h.hi <= 134_217_728
}
