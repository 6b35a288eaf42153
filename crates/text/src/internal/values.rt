ghost use Rattle.std.specs.Prelude.{◌≡◌, Some, ◌+◌, ◌*◌, ◌≤◌, length, take, option_map};
ghost use Rattle.text.specs.Parts.{fields};
ghost use Rattle.text.specs.Number.{value, then, values};
ghost use Rattle.text.specs.Code.{both, only_if};

use crate::internal::number::number_of;
use inputs::internal::write;
use interval::Interval;
use search::first;

// lower ':' upper
fn value_of(field: &[u8]) -> Option<Interval>
    ensures { option_map both result ≡ value field.now }
{
    let colon = first(field, 0, b':')?;
    let lo = number_of(&field[..colon])?;
    let hi = number_of(&field[colon + 1..])?;
    Some(Interval { lo, hi })
}

// Reads a value to position p of t.
fn place_value(field: &[u8], t: &mut [i64], p: usize) -> Option<()>
    requires { 2 * (p + 1) ≤ length t.old }
    ensures { only_if result (take (2 * (p + 1)) t.new)
        ≡ then (Some (take (2 * p) t.old)) (value field.now) }
{
    write(t, p, value_of(field)?);
    Some(())
}

// Reads a line of n values to position p of t and on.
pub fn read_values(line: &[u8], n: usize, t: &mut [i64], p: usize) -> Option<()>
    requires { (1 ≤ n) × (2 * (p + n) ≤ length t.old) }
    ensures { only_if result (take (2 * (p + n)) t.new)
        ≡ then (Some (take (2 * p) t.old)) (values n (fields line.now)) }
{
    let mut at = 0;
    for i in 0..n - 1 {
        let stop = first(line, at, b';')?;
        place_value(&line[at..stop], t, p + i)?;
        at = stop + 1;
    }
    if first(line, at, b';').is_some() {
        return None;
    }
    place_value(&line[at..], t, p + (n - 1))
}
