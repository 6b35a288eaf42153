ghost use Rattle.std.specs.Prelude.{◌≡◌, ◌+◌, ◌≤◌, length};
ghost use Rattle.search.specs.Word.{word_at};

// Eight bytes as a number, the first lowest. The compiler makes one load of them.
pub fn word(s: &[u8], i: usize) -> u64
    requires { i + 8 ≤ length s.now }
    ensures { result ≡ word_at s.now i 8 }
{
    u64::from_le_bytes(*s[i..].first_chunk().unwrap())
}
