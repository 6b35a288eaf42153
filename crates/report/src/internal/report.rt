ghost use Rattle.std.specs.Prelude.{◌≡◌, ◌≤◌, length};
ghost use Rattle.text.specs.Code.{system_of};
ghost use Rattle.report.specs.Call.{answer_of, solved, reported};

use crate::Written;
use crate::internal::calculation::calculate_from;
use crate::internal::sheet::{calculated, hand_out};
use outcome::Refusal;
use text::internal::lines::Numbers;

// The sheet of a balance of which the numbers stand at the beginning of t.
pub fn put_balance(out: &mut [u8], names: &[u8], n: usize, t: &Numbers) -> Result<Written, Refusal>
    requires in_bounds { (2048 ≤ length out.old) × (length names.now ≤ 543) }
    requires le_n { (1 ≤ n) × (n ≤ 32) }
    ensures { answer_of result out.new ≡ reported names.now n out.old (solved (system_of n t.now)) }
{
    let mut x = [0; 64];
    let bounds = &mut x[..2 * n];
    let s = calculate_from(n, t, bounds);
    let ending = s.outcome?;
    let sheet = calculated(names, n, bounds, ending, s.count);
    let count = hand_out(&sheet, out);
    Ok(Written { ending, count })
}
