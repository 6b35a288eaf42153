ghost use Rattle.std.specs.Prelude.{◌≡◌, ◌+◌, ◌≤◌, ◌<◌, length, drop};
ghost use Rattle.text.specs.Parts.{fields, part, start_of};

use search::first;

// Where the part with the number k, from 0, starts in a line.
pub fn start_of(line: &[u8], k: usize) -> usize
    requires { k < length (fields line.now) }
    ensures value { (result ≡ start_of (fields line.now) k) × (result ≤ length line.now) }
    ensures line_value { part (fields (drop result line.now)) 0 ≡ part (fields line.now) k }
{
    let mut at = 0;
    for _i in 0..k {
        at = first(line, at, b';').unwrap() + 1;
    }
    at
}

// Where the part that starts at a place stops.
pub fn stop_from(line: &[u8], at: usize) -> usize
    requires { at ≤ length line.now }
    ensures { (result ≡ at + length (part (fields (drop at line.now)) 0)) × (result ≤ length line.now) }
{
    first(line, at, b';').unwrap_or(line.len())
}
