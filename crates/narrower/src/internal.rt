ghost use Rattle.std.specs.Prelude.{◌≡◌, true};
ghost use Rattle.inputs.specs.Place.{widths};
ghost use Rattle.narrower.specs.Choice.{is_box, chosen};

use crate::Choice;
use inputs::internal::{intervals, read, size};

#[tactic(auto, unfolding(crate::specs::Choice::chosen, crate::specs::Choice::by_widths))]
// Which of the two has the smaller sum of widths; a slice that is no box is wider than any.
pub fn choose(n: usize, first: &[i64], second: &[i64]) -> Choice
    ensures { result ≡ chosen n first.now second.now }
{
    match (is_box(n, first), is_box(n, second)) {
        (true, true) if sum_of_widths(n, second) < sum_of_widths(n, first) => Choice::Second,
        (true, _) => Choice::First,
        (false, true) => Choice::Second,
        (false, false) => Choice::Neither,
    }
}

#[tactic(auto, using(crate::proofs::Box::is_box_by_tests, crate::proofs::Box::few))]
// The slice is a box of n components: it passes the tests 1, 2 and 3.
fn is_box(n: usize, x: &[i64]) -> bool
    ensures { result ≡ is_box n x.now }
{
    size(n).is_ok() && x.len() == 2 * n && intervals(x, n, 0).is_ok()
}

#[tactic(auto, using(crate::proofs::Box::is_a_box), unfolding(inputs::specs::Place::widths, integer::specs::Total::total))]
// The sum of the widths of a box.
fn sum_of_widths(n: usize, x: &[i64]) -> i64
    requires { is_box n x.now ≡ true }
    ensures { result ≡ widths x.now n 0 }
{
    let mut sum: i64 = 0;
    for i in 0..n {
        let v = read(x, i);
        sum += v.hi - v.lo;
    }
    sum
}
