ghost use Rattle.std.specs.Prelude.{◌≡◌, ◌+◌, ◌≤◌, length};
ghost use Rattle.search.specs.Word.{marks_at};

use crate::internal::word::word;

// Which of the eight bytes from a place on are b: the top bit of each that is. No sum of two bytes here reaches the next byte, so every mark is right, not only the lowest.
pub fn marks(s: &[u8], i: usize, b: u8) -> u64
    requires { i + 8 ≤ length s.now }
    ensures { result ≡ marks_at s.now i b 8 }
{
    let x = word(s, i) ^ (b as u64 * 0x0101_0101_0101_0101);
    let y = (x & 0x7f7f_7f7f_7f7f_7f7f) + 0x7f7f_7f7f_7f7f_7f7f;
    ((y | x) & 0x8080_8080_8080_8080) ^ 0x8080_8080_8080_8080
}
