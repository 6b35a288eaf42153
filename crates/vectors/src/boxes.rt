ghost use Rattle.vectors.specs.Reader.{Passed};

use crate::lines;
use crate::reader::{Head, Reader};
use narrower::narrower;

// The narrower of two boxes: n, their lengths, and the numbers of both. Its line has how many numbers the one handed back holds, and which.
pub(crate) fn run(rt: &impl Print, reader: &mut Reader, head: Head)
    ensures { Passed reader.old reader.new }
{
    let [n, x_size, y_size] = reader.naturals::<3>();
    let mut x = [0; 128];
    let mut y = [0; 128];
    let x = reader.fill(&mut x, x_size);
    let y = reader.fill(&mut y, y_size);
    let z = narrower(n, x, y);
    lines::begin(rt, head);
    lines::value(rt, z.len());
    lines::values(rt, z);
    lines::end(rt);
}
