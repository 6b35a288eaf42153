pub mod copy;

ghost use Rattle.std.specs.Prelude.{◌≡◌, ◌+◌, ◌*◌, ◌≤◌, ◌<◌, length};
ghost use Rattle.inputs.specs.Place.{at, put};
ghost use Rattle.inputs.specs.Tests.{sized, lengths, sizes, proper};
ghost use Rattle.inputs.specs.System.{system, slices, tests};

use crate::Slice;
use interval::Interval;
use interval::internal::is_acceptable;
use outcome::Refusal;

// The interval at position p. C lends intervals as numbers, lower then upper, so they are read by place.
pub fn read(s: &[i64], p: usize) -> Interval
    requires { 2 * p + 1 < length s.now }
    ensures { result ≡ at s.now p }
{
    let q = 2 * p;
    let lo = s[q];
    let hi = s[q + 1];
    Interval { lo, hi }
}

// v becomes the interval at position p.
pub fn write(s: &mut [i64], p: usize, v: Interval)
    requires { 2 * p + 1 < length s.old }
    ensures { s.new ≡ put s.old p v }
{
    let q = 2 * p;
    let lo = v.lo;
    let hi = v.hi;
    s[q] = lo;
    s[q + 1] = hi;
}

// Test 1, of n.
pub fn size(n: usize) -> Result<(), Refusal>
    ensures { result ≡ sized n }
{
    if 1 <= n && n <= 32 {
        return Ok(());
    }
    Err(Refusal::Size)
}

// Test 2, of lent slices.
pub fn lengths(slices: &[Slice]) -> Result<(), Refusal>
    ensures { result ≡ lengths slices.now }
{
    for s in slices {
        if s.held != s.wanted {
            return Err(Refusal::Length(s.place));
        }
    }
    Ok(())
}

// Test 3, of the intervals of one slice, whose first position is from.
pub fn intervals(s: &[i64], count: usize, from: usize) -> Result<(), Refusal>
    requires { (2 * count ≤ length s.now) × (from + count < 65_536) }
    ensures { result ≡ proper s.now count 0 from }
{
    for p in 0..count {
        if !is_acceptable(read(s, p)) {
            return Err(Refusal::Ends(from + p));
        }
    }
    Ok(())
}

#[tactic(auto, using(crate::proofs::System::sizes_stop, crate::proofs::System::sizes_last, crate::proofs::Tests::sized_pass, crate::proofs::Tests::square))]
// Tests 1 and 2 of a matrix, a right side and a box, of which only the lengths count.
pub fn sizes(n: usize, matrix: &[i64], right: &[i64], bounds: usize) -> Result<(), Refusal>
    ensures { result ≡ sizes n (slices (system n matrix.now right.now) bounds) }
{
    size(n)?;
    lengths(&[
        Slice {
            place: 1,
            held: matrix.len(),
            wanted: 2 * (n * n),
        },
        Slice {
            place: 2,
            held: right.len(),
            wanted: 2 * n,
        },
        Slice {
            place: 3,
            held: bounds,
            wanted: 2 * n,
        },
    ])
}

// Tests 1, 2 and 3 of a matrix, a right side and a box of which only the length counts. They come one by one, as C lends them; a struct holds them where the tests have passed.
pub fn tested(n: usize, matrix: &[i64], right: &[i64], bounds: usize) -> Result<(), Refusal>
    ensures { result ≡ tests (system n matrix.now right.now) bounds }
{
    sizes(n, matrix, right, bounds)?;
    intervals(matrix, n * n, 0)?;
    intervals(right, n, n * n)
}
