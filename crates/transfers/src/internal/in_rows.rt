// A list that stands in rows, and a box whose components its shares are multiplied with.
ghost use Rattle.std.specs.Prelude.{◌≡◌, true, ◌*◌, ◌≤◌, pos, length, ◌≤ℤ◌};
ghost use Rattle.inputs.specs.Code.{Sound};
ghost use Rattle.rows.specs.Word.{NoneBelow};
ghost use Rattle.transfers.specs.Listing.{transfers_of};
ghost use Rattle.transfers.specs.Rows.{InRange, Rows as InRows};

use interval::Interval;

// Row i has the records from ends[i] on and before ends[i + 1]: places, of which row_sum in specs/Rows.antt speaks. The hull holds all their shares.
#[derive(Clone, Copy)]
pub struct Rows<'a> {
    pub n: usize,
    pub records: &'a [[i64; 4]],
    pub ends: &'a [usize; 33],
    pub hull: Interval,
    pub ghost few: { n ≤ 32 },
    pub ghost list: { length records.now ≤ 1_024 },
    pub ghost range: { InRange hull },
    pub ghost rows: { InRows n (transfers_of records.now) ends.now hull },
}

// above says that no share and no component is below 0.
#[derive(Clone, Copy)]
pub struct Sums<'a> {
    pub rows: Rows<'a>,
    pub x: &'a [i64],
    pub above: bool,
    pub ghost long: { length x.now ≡ 2 * rows.n },
    pub ghost sound: { Sound x.now },
    pub ghost signs: { above ≡ true → (pos 0 ≤ℤ rows.hull.lo) × NoneBelow x.now },
}
