ghost use Rattle.std.specs.Prelude.{◌≡◌, ◌≤◌, length, IfSome};
ghost use Rattle.text.specs.Number.{digits, magnitude, number};

// The number of at most ten digits.
fn all_digits(s: &[u8]) -> Option<u64>
    requires { length s.now ≤ 10 }
    ensures value { result ≡ digits s.now 0 }
    ensures short { IfSome result (λ m. m ≤ 9_999_999_999) }
{
    let mut v = 0;
    for &b in s {
        if !b.is_ascii_digit() {
            return None;
        }
        v = v * 10 + (b - b'0') as u64;
    }
    Some(v)
}

// 1 to 10 digits, no needless leading zero.
fn unsigned(s: &[u8]) -> Option<u64>
    ensures value { result ≡ magnitude s.now }
    ensures short { IfSome result (λ m. m ≤ 9_999_999_999) }
{
    if s.len() < 1 || s.len() > 10 {
        return None;
    }
    if s[0] == b'0' && s.len() != 1 {
        return None;
    }
    all_digits(s)
}

// A number of the text: digits, with a '-' before them if it is below nought; '-0' is none.
pub fn number_of(s: &[u8]) -> Option<i64>
    ensures { result ≡ number s.now }
{
    let (&first, rest) = s.split_first()?;
    if first != b'-' {
        return Some(unsigned(s)? as i64);
    }
    match unsigned(rest)? {
        0 => None,
        m => Some(-(m as i64)),
    }
}
