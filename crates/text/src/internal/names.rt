ghost use Rattle.std.specs.Prelude.{◌≡◌, ◌∷◌, [], ◌++◌, ◌+◌, ◌≤◌, ◌<◌, length, is_some, OnSome};
ghost use Rattle.arrayvec.specs.ArrayVec.{array_vec_len};
ghost use Rattle.search.specs.Word.{packed};
ghost use Rattle.text.specs.Names.{name_byte, is_name};
ghost use Rattle.text.specs.Code.{is_new, names_of, Few};

use arrayvec::ArrayVec;
use search::first;

// the bytes of a name, at most
const LONGEST: usize = 16;

fn is_name_byte(b: u8) -> bool
    ensures { result ≡ name_byte b }
{
    b.is_ascii_alphanumeric() || b == b'-'
}

// 1 to 16 bytes from A–Z, a–z, 0–9 and '-'.
#[tactic(auto, using(crate::proofs::Names::name_empty, crate::proofs::Names::name_long, crate::proofs::Names::name_fits, crate::proofs::Names::bytes_all))]
fn is_name(s: &[u8]) -> bool
    ensures { result ≡ is_name s.now }
{
    1 <= s.len() && s.len() <= LONGEST && s.iter().all(|&b| is_name_byte(b))
}

// The bytes as a number, the first lowest.
fn pack(s: &[u8]) -> u128
    requires { length s.now ≤ 16 }
    ensures { result ≡ packed s.now }
{
    let mut bytes = [0; 16];
    bytes[..s.len()].copy_from_slice(s);
    u128::from_le_bytes(bytes)
}

// A line may have this name after those whose numbers are in codes: its number then follows them.
fn enter(name: &[u8], codes: &mut ArrayVec<u128, 32>) -> Option<()>
    requires { array_vec_len codes.old < 32 }
    ensures value { is_some result ≡ is_new codes.old.items name.now }
    ensures codes_after { OnSome result (codes.new.items ≡ codes.old.items ++ packed name.now ∷ []) }
{
    if !is_name(name) {
        return None;
    }
    let code = pack(name);
    if codes.as_slice().contains(&code) {
        return None;
    }
    codes.push(code);
    Some(())
}

// A line of 1 to 32 names, all different.
pub fn read_names(line: &[u8]) -> Option<usize>
    ensures value { result ≡ names_of line.now }
    ensures few { Few line.now result }
{
    let mut codes = ArrayVec::new();
    let mut at = 0;
    for n in 0..32 {
        let Some(stop) = first(line, at, b';') else {
            enter(&line[at..], &mut codes)?;
            return Some(n + 1);
        };
        enter(&line[at..stop], &mut codes)?;
        at = stop + 1;
    }
    None
}
