ghost use Rattle.std.specs.Prelude.{◌≡◌, ◌+◌, ◌*◌, ◌≤◌, length, take, drop, IfOk};
ghost use Rattle.outcome.specs.Run.{run_of};
ghost use Rattle.text.specs.Parts.{parts};
ghost use Rattle.text.specs.Text.{rows_from, reading};
ghost use Rattle.text.specs.Code.{Heads, Headed, reading_is};

use crate::internal::names::read_names;
use crate::internal::values::read_values;
use outcome::Refusal;
use search::first;

// the bytes of a text, at most
const LONGEST: usize = 65_536;

// Room for the numbers of 32 vats, of fixed size since there is no heap: those of B, and then those of b. Written by place, as the working copy of an elimination is.
pub type Numbers = [i64; 2112];

// Line 1: how many names it has, and where its byte 10 stands.
#[derive(Clone, Copy)]
pub struct Heading {
    pub count: usize,
    pub stop: usize,
}

// The length of the text, and its line 1.
pub fn read_head(text: &[u8]) -> Result<Heading, Refusal>
    ensures { Heads text.now result }
{
    if text.len() > LONGEST {
        return Err(Refusal::Text(0));
    }
    let stop = first(text, 0, 10).ok_or(Refusal::Text(1))?;
    let count = read_names(&text[..stop]).ok_or(Refusal::Text(1))?;
    Ok(Heading { count, stop })
}

// The n + 1 lines of n values from a place on, after which nothing follows. Their numbers go to the beginning of t.
fn read_rows(text: &[u8], from: usize, n: usize, t: &mut Numbers) -> Result<(), Refusal>
    requires { (from ≤ length text.now) × ((1 ≤ n) × (n ≤ 32)) }
    ensures length { length t.new ≡ 2112 }
    ensures t_after { run_of result (take (2 * ((n + 1) * n)) t.new)
        ≡ rows_from n (n + 1) 2 (parts 10 (drop from text.now)) }
{
    let mut at = from;
    for i in 0..n + 1 {
        let faulty = Refusal::Text(i + 2);
        let stop = first(text, at, 10).ok_or(faulty)?;
        read_values(&text[at..stop], n, t, i * n).ok_or(faulty)?;
        at = stop + 1;
    }
    if at != text.len() {
        return Err(Refusal::Text(n + 3));
    }
    Ok(())
}

// Reads a whole text. The numbers of B and then those of b go to the beginning of t.
pub fn read_text(text: &[u8], t: &mut Numbers) -> Result<Heading, Refusal>
    ensures t_after { reading_is text.now result t.new ≡ reading text.now }
    ensures fits { IfOk result (Headed text.now) }
{
    let h = read_head(text)?;
    read_rows(text, h.stop + 1, h.count, t)?;
    Ok(h)
}
