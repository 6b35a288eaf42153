// The search by itself, for the outside check alone: crate search_c exports it in an archive of its own, not among the calls for C.
ghost use Rattle.std.specs.Prelude.{◌≡◌, length};
ghost use Rattle.search.specs.First.{first_from, place_or};

use crate::first;

// The place, or the length of s if there is none.
#[unsafe(no_mangle)]
pub extern "C" fn kifwaleb_first_byte(s: &[u8], from: usize, b: u8) -> usize
    ensures { result ≡ place_or (length s.now) (first_from s.now from b) }
{
    first(s, from, b).unwrap_or(s.len())
}
