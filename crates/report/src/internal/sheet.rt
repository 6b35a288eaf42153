// What is printed, piece by piece.
ghost use Rattle.std.specs.Prelude.{◌≡◌, ◌++◌, ◌+◌, ◌*◌, ◌≤◌, length, min};
ghost use Rattle.arrayvec.specs.ArrayVec.{array_vec_len};
ghost use Rattle.outcome.specs.Table.{number_and_place};
ghost use Rattle.text.specs.Call.{over};
ghost use Rattle.report.specs.Sheet.{bound, bounds, counted, calculated, refusal};
ghost use Rattle.report.specs.Code.{word};

use arrayvec::ArrayVec;
use inputs::internal::read;
use interval::Interval;
use itoa::{Buffer, Integer};
use outcome::{Ending, Outcome, number, place};

// What is printed for one text has room here.
pub type Sheet = ArrayVec<u8, 2048>;

fn put(sheet: &mut Sheet, s: &[u8])
    requires { array_vec_len sheet.old + length s.now ≤ 2048 }
    ensures { sheet.new.items ≡ sheet.old.items ++ s.now }
{
    sheet.try_extend_from_slice(s).unwrap()
}

fn put_number<I: Integer>(sheet: &mut Sheet, n: I)
    requires { array_vec_len sheet.old + I.MAX_STR_LEN ≤ 2048 }
    ensures text { sheet.new.items ≡ sheet.old.items ++ I.text n }
    ensures short { array_vec_len sheet.new ≤ array_vec_len sheet.old + I.MAX_STR_LEN }
{
    let mut digits = Buffer::new();
    put(sheet, digits.format(n).as_bytes());
}

fn put_bound(sheet: &mut Sheet, v: Interval)
    requires { array_vec_len sheet.old + 41 ≤ 2048 }
    ensures text { sheet.new.items ≡ sheet.old.items ++ bound v }
    ensures short { array_vec_len sheet.new ≤ array_vec_len sheet.old + 41 }
{
    put_number(sheet, v.lo);
    sheet.push(b':');
    put_number(sheet, v.hi);
}

// The n bounds of x, each in at most 41 bytes, parted by ';'.
fn put_bounds(sheet: &mut Sheet, x: &[i64], n: usize)
    requires { (1 ≤ n) × (2 * n ≤ length x.now) × (array_vec_len sheet.old + 42 * n ≤ 2048) }
    ensures text { sheet.new.items ≡ sheet.old.items ++ bounds n 0 x.now }
    ensures short { array_vec_len sheet.new ≤ array_vec_len sheet.old + 42 * n }
{
    put_bound(sheet, read(x, 0));
    for p in 1..n {
        sheet.push(b';');
        put_bound(sheet, read(x, p));
    }
}

// The last line of a calculation.
fn put_counted(sheet: &mut Sheet, ending: Ending, count: usize)
    requires { array_vec_len sheet.old + 29 ≤ 2048 }
    ensures { sheet.new.items ≡ sheet.old.items ++ counted (word ending) count }
{
    match ending {
        Ending::Done => put(sheet, b"settled"),
        Ending::Spent => put(sheet, b"spent"),
    }
    sheet.push(b' ');
    put_number(sheet, count);
    sheet.push(b'\n');
}

// The three lines of a calculation.
pub fn calculated(names: &[u8], n: usize, x: &[i64], ending: Ending, count: usize) -> Sheet
    requires names { length names.now ≤ 543 }
    requires le_n { (1 ≤ n) × (n ≤ 32) × (2 * n ≤ length x.now) }
    ensures { result.items ≡ calculated names.now n x.now (word ending) count }
{
    let mut sheet = Sheet::new();
    put(&mut sheet, names);
    sheet.push(b'\n');
    put_bounds(&mut sheet, x, n);
    sheet.push(b'\n');
    put_counted(&mut sheet, ending, count);
    sheet
}

// The line of a refusal, or of any other outcome.
pub fn refused(o: Outcome) -> Sheet
    ensures line { result.items ≡ refusal (number_and_place o).number (number_and_place o).place }
    ensures short { array_vec_len result ≤ 50 }
{
    let mut sheet = Sheet::new();
    put(&mut sheet, b"refused ");
    put_number(&mut sheet, number(o));
    sheet.push(b' ');
    put_number(&mut sheet, place(o));
    sheet.push(b'\n');
    sheet
}

// Copies a sheet to the beginning of out, which has room for it or for any sheet, and answers how many bytes it has.
pub fn hand_out(sheet: &Sheet, out: &mut [u8]) -> usize
    requires { min 2048 (length sheet.now.items) ≤ length out.old }
    ensures count { result ≡ length sheet.now.items }
    ensures out_after { out.new ≡ over sheet.now.items out.old }
{
    let s = sheet.as_slice();
    out[..s.len()].copy_from_slice(s);
    s.len()
}

#[cfg(test)]
mod tests {
    use super::*;
    use outcome::Refusal;

    // Who lends room for any sheet need not know how long this one is.
    fn hand_out_any(sheet: &Sheet, out: &mut [u8; 2048]) -> usize {
        hand_out(sheet, out)
    }

    // The same line into room for any sheet and into room for a line; the bytes behind it stay.
    #[test]
    fn a_line_is_handed_out(rt: HostRuntime) {
        let line = refused(Err(Refusal::Text(1)));
        let mut long = [b'.'; 2048];
        assert_eq!(rt; hand_out_any(&line, &mut long), 12);
        assert_eq!(rt; &long[..13], b"refused 8 1\n.".as_slice());
        let mut short = [b'.'; 50];
        assert_eq!(rt; hand_out(&line, &mut short), 12);
        assert_eq!(rt; &short[..13], b"refused 8 1\n.".as_slice());
    }
}
