#![tactic(auto)]

// Reads a cellar text from standard input and prints its sheet. A failed read prints no sheet; a failed read or write is said on standard error.
ghost use Rattle.balance.specs.Input.{Within};

use std::io;
use std::io::Read;

// All that there is to read, as far as buf holds it: std's read_to_end fills a Vec, for which there is no heap.
fn read_input<R: Read>(source: &mut R, buf: &mut [u8]) -> io::Result<usize>
    ensures { Within (R.remaining source.old) (R.remaining source.new) buf.new result }
{
    let mut done = 0;
    while done < buf.len() {
        let more = source.read(&mut buf[done..])?;
        if more == 0 {
            return Ok(done);
        }
        done += more;
    }
    Ok(done)
}

fn main(rt: HostRuntime) {
    let mut text = [0; 65537];
    let Ok(n) = read_input(&mut rt.stdin(), &mut text) else {
        let _ = eprintln!(rt; "balance: standard input cannot be read");
        return;
    };
    let mut out = [0; 2048];
    // out has the length that is wanted: it is not refused
    let count = report::print(&text[..n], &mut out).unwrap_or(0);
    if rt.write_all(&out[..count]).is_err() {
        let _ = eprintln!(rt; "balance: the sheet cannot be written");
    }
}
