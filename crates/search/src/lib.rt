#![tactic(auto)]

pub mod claims;
pub mod internal;
pub mod outside;

ghost use Rattle.std.specs.Prelude.{◌≡◌, ◌≤◌, length};
ghost use Rattle.search.specs.First.{first_from, within};

use crate::internal::marks::marks;

// The first b from a place on, byte by byte: for the bytes that make no word.
fn first_by_bytes(s: &[u8], from: usize, b: u8) -> Option<usize>
    requires { from ≤ length s.now }
    ensures { result ≡ first_from s.now from b }
{
    s[from..].iter().position(|&x| x == b).map(|k| from + k)
}

// The place of the first byte b in s, from a place on, which need not lie in s. All reading of a text goes by this search, eight bytes in a turn.
pub fn first(s: &[u8], from: usize, b: u8) -> Option<usize>
    ensures value { result ≡ first_from s.now from b }
    ensures within { within s.now from result }
{
    if s.len() < from {
        return None;
    }
    let mut i = from;
    // By hand: the edits seven_bytes_as_a_word and turn_of_nine are of this test and this step.
    while 8 <= s.len() - i {
        let m = marks(s, i, b);
        if m != 0 {
            return Some(i + (m.trailing_zeros() / 8) as usize);
        }
        i += 8;
    }
    first_by_bytes(s, i, b)
}
