#![tactic(auto)]

pub mod internal;

ghost use Rattle.std.specs.Prelude.{◌≡◌, ◌+◌, ◌≤◌, length};
ghost use Rattle.outcome.specs.Run.{counted};
ghost use Rattle.text.specs.Call.{lent, read, bytes_of, name_span};
ghost use Rattle.text.specs.Code.{handed};

use crate::internal::field::{start_of, stop_from};
use crate::internal::lines::{Numbers, read_head, read_text};
use inputs::Slice;
use inputs::internal::copy::fill;
use inputs::internal::lengths;
use outcome::Refusal;

// Hands out the numbers at the beginning of t: those of B to matrix, those of b to right.
fn hand_out(n: usize, t: &Numbers, matrix: &mut [i64], right: &mut [i64]) -> Result<usize, Refusal>
    requires { n ≤ 32 }
    ensures { counted result (lent matrix.new right.new)
        ≡ handed n t.now (lent matrix.old right.old) }
{
    let lent_matrix = Slice {
        place: 1,
        held: matrix.len(),
        wanted: 2048,
    };
    let lent_right = Slice {
        place: 2,
        held: right.len(),
        wanted: 64,
    };
    lengths(&[lent_matrix, lent_right])?;
    let square = 2 * (n * n);
    let stop = square + 2 * n;
    fill(matrix, &t[..square], 0);
    fill(right, &t[square..stop], 0);
    Ok(n)
}

// Reads a text: the numbers of B to the beginning of matrix, those of b to the beginning of right. Answers the number of vats.
pub fn read(text: &[u8], matrix: &mut [i64], right: &mut [i64]) -> Result<usize, Refusal>
    ensures { counted result (lent matrix.new right.new)
        ≡ read text.now (lent matrix.old right.old) }
{
    let mut t: Numbers = [0; 2112];
    let h = read_text(text, &mut t)?;
    hand_out(h.count, &t, matrix, right)
}

// The name of a vat, by its number, as the part of the text where it stands; an empty part if there is none.
pub fn name(text: &[u8], component: usize) -> &[u8]
    ensures start { result.ref_ptr ≡ (text.entry.ref_ptr.0, (name_span text.now component).start + text.entry.ref_ptr.1) }
    ensures size { length result.now ≡ (name_span text.now component).size }
    ensures bytes { result.now ≡ bytes_of text.now (name_span text.now component) }
{
    let Ok(h) = read_head(text) else {
        return &text[..0];
    };
    if component < 1 || component > h.count {
        return &text[..0];
    }
    let line = &text[..h.stop];
    let start = start_of(line, component - 1);
    let end = stop_from(line, start);
    &text[start..end]
}
