ghost use Rattle.std.specs.Prelude.{◌≡◌, length, take};
ghost use Rattle.vectors.specs.Reader.{Passed};

use crate::calls::{Subject, run_calls};
use crate::lines;
use crate::lines::Answer;
use crate::reader::{Reader, first};

#[derive(Clone, Copy, Debug, PartialEq, Eq)]
pub(crate) enum Call {
    // into slices of these lengths
    Read { matrix: usize, right: usize },
    // of a vat
    Name(usize),
    // into slices of this length
    Report(usize),
    Print(usize),
    Find { byte: u8, from: usize },
}

#[derive(Drop)]
struct Text<'a>(&'a [u8]);

// What lent numbers hold; no number of a text has so many digits.
const LENT: i64 = 77_777_777_777;

// What lent bytes hold; no sheet has such a byte.
const BLANK: u8 = b'.';

// What was lent, up to the last that is not as it was lent.
fn used<T: PartialEq + Drop>(lent: &[T], blank: T) -> &[T]
    ensures { result.now ≡ take (length result.now) lent.now }
{
    let end = lent
        .iter()
        .rposition(|x| *x != blank)
        .map_or(0, |last| last + 1);
    &lent[..end]
}

fn show_used(rt: &impl Print, t: &[i64]) {
    lines::say(rt, b" :");
    lines::values(rt, used(t, LENT));
}

// The numbers of a text: how the call ended, n, and what the slices hold.
fn show_numbers(rt: &impl Print, text: &[u8], matrix_size: usize, right_size: usize) {
    // An array of fixed size, since there is no heap.
    let mut matrix = [LENT; 2304];
    let mut right = [LENT; 128];
    let matrix = first(&mut matrix, matrix_size);
    let right = first(&mut right, right_size);
    lines::ended(rt, text::read(text, matrix, right).into());
    show_used(rt, matrix);
    show_used(rt, right);
}

// A name: its length and its bytes.
fn show_name(rt: &impl Print, text: &[u8], vat: usize) {
    let name = text::name(text, vat);
    lines::value(rt, name.len());
    lines::say(rt, b" :");
    lines::say(rt, name);
}

// The place of a byte in the text, or 'none'.
fn show_place(rt: &impl Print, text: &[u8], from: usize, byte: u8) {
    match search::first(text, from, byte) {
        Some(place) => lines::value(rt, place),
        None => lines::say(rt, b" none"),
    }
}

// What a call writes into so many bytes: how it ended, the count, and what the slice holds. Line ends become '|', so that a sheet takes one line.
fn show_sheet<F: FnOnce(&mut [u8]) -> Answer>(rt: &impl Print, size: usize, write: F)
    requires { F.IsAlwaysCallable write }
{
    // An array of fixed size, since there is no heap.
    let mut out = [BLANK; 4096];
    let out = first(&mut out, size);
    lines::ended(rt, write(out));
    for b in out.iter_mut() {
        if *b == b'\n' {
            *b = b'|';
        }
    }
    lines::say(rt, b" :");
    lines::say(rt, used(out, BLANK));
}

impl Subject for Text<'_> {
    type Call = Call;

    fn read(letter: u8, reader: &mut Reader) -> Option<Call>
        ensures { Passed reader.old reader.new }
    {
        let call = match letter {
            b'R' => {
                let [matrix, right] = reader.naturals::<2>();
                Call::Read { matrix, right }
            }
            b'N' => Call::Name(reader.natural()),
            b'W' => Call::Report(reader.natural()),
            b'P' => Call::Print(reader.natural()),
            b'F' => {
                let [from, byte] = reader.naturals::<2>();
                let byte = u8::try_from(byte).unwrap_or(u8::MAX);
                Call::Find { byte, from }
            }
            _ => return None,
        };
        Some(call)
    }

    fn run<P: Print>(&mut self, rt: &P, call: Call) {
        let text = self.0;
        match call {
            Call::Read { matrix, right } => show_numbers(rt, text, matrix, right),
            Call::Name(vat) => show_name(rt, text, vat),
            Call::Report(size) => show_sheet(rt, size, |out| report::report(text, out).into()),
            Call::Print(size) => show_sheet(rt, size, |out| report::print(text, out).into()),
            Call::Find { byte, from } => show_place(rt, text, from, byte),
        }
    }
}

// A text: the number of its bytes, a line end, and the bytes. Its calls follow.
pub(crate) fn run(rt: &impl Print, reader: &mut Reader)
    ensures { Passed reader.old reader.new }
{
    let size = reader.natural();
    // the line end
    let _ = reader.byte();
    let text = reader.bytes(size);
    run_calls(rt, reader, &mut Text(text));
}
