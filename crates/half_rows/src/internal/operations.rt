ghost use Rattle.std.specs.Prelude.{◌≡◌, true, not, ◌*◌, ◌≤◌, ◌<◌, length};
ghost use Rattle.outcome.specs.Run.{run_of};
ghost use Rattle.interval.specs.Interval.{acceptable};
ghost use Rattle.inputs.specs.Place.{at};
ghost use Rattle.inputs.specs.Code.{Ended};
ghost use Rattle.half_rows.specs.Rows.{worked};
ghost use Rattle.half_rows.specs.State.{box_of, with_box, with_sums, with_turn};
ghost use Rattle.half_rows.specs.Operations.{pass_of, narrowed_to, narrowed_of};
ghost use Rattle.half_rows.specs.Code.{is_back, pass_end};

use crate::internal::narrow::Exchange;
use crate::internal::pass::HalfPass;
use crate::internal::state::{BOX, LENGTH, MATRIX, RIGHT, put_parts};
use crate::internal::way::Way;
use inputs::internal::copy::copy_out;
use inputs::internal::{intervals, read, write};
use interval::Interval;
use interval::internal::{intersection, is_acceptable, is_empty};
use outcome::Refusal;

// The half pass on copies of the box and of the sums that it works out, if box and right side are of intervals.
fn pass_on(
    n: usize,
    way: Way,
    state: &[i64; LENGTH],
    x: &mut [i64],
    sums: &mut [i64],
) -> Result<(), Refusal>
    requires { (n ≤ 32) × (length x.old ≡ 2 * n) × (length sums.old ≡ 4 * n) }
    ensures { run_of result (worked x.new sums.new) ≡ pass_of (is_back way) state.now n }
{
    copy_out(x, state, BOX);
    copy_out(sums, state, way.sums_place());
    let right = &state[RIGHT..RIGHT + 2 * n];
    if intervals(x, n, 0).is_err() || intervals(right, n, 0).is_err() {
        return Err(Refusal::NotDue);
    }
    let kept = way.other().sums_place();
    let pass = HalfPass {
        n,
        way,
        matrix: &state[MATRIX..MATRIX + 2 * (n * n)],
        right,
        kept: &state[kept..kept + 4 * n],
    };
    pass.run(x, sums)
}

// Box and sums become those of a whole half pass, and the other half is due.
pub fn commit(state: &mut [i64; LENGTH], way: Way, x: &[i64], sums: &[i64])
    requires { (length x.now ≤ 64) × (length sums.now ≤ 128) }
    ensures { state.new ≡ with_turn (with_sums (with_box state.old x.now) (is_back way) sums.now) (not (is_back way)) }
{
    put_parts(state, way, x, sums);
    state[1] = way.other() as i64;
}

// The half pass, on a state that is loaded and in turn.
pub fn half(n: usize, way: Way, state: &mut [i64; LENGTH]) -> Result<(), Refusal>
    requires { n ≤ 32 }
    ensures { Ended (pass_end (is_back way) state.old n) result state.old state.new }
{
    // An array of fixed size, since there is no heap.
    let mut x = [0i64; 64];
    let mut sums = [0i64; 128];
    let x = &mut x[..2 * n];
    let sums = &mut sums[..4 * n];
    pass_on(n, way, state, x, sums)?;
    commit(state, way, x, sums);
    Ok(())
}

// Component v of x becomes new, and the sums that the half pass now due reads are renewed.
fn narrow_to(
    n: usize,
    way: Way,
    state: &mut [i64; LENGTH],
    v: usize,
    new: Interval,
    x: &mut [i64],
    sums: &mut [i64],
) -> Result<(), Refusal>
    requires n_bound { (n ≤ 32) × (v < n) × (x.old ≡ box_of state.old n) × (length sums.old ≡ 4 * n) }
    requires v_value { (acceptable (at x.old v) ≡ true) × (acceptable new ≡ true) }
    ensures { Ended (narrowed_to (is_back way) state.old n v new) result state.old state.new }
{
    let ahead = way.other();
    copy_out(sums, state, ahead.sums_place());
    let exchange = Exchange {
        n,
        matrix: &state[MATRIX..MATRIX + 2 * (n * n)],
        v,
        old: read(x, v),
        new,
    };
    exchange.renew(way.first(v), way.beside(n, v), sums)?;
    write(x, v, new);
    put_parts(state, ahead, x, sums);
    Ok(())
}

// Component v is narrowed by w.
pub fn narrow(
    n: usize,
    way: Way,
    state: &mut [i64; LENGTH],
    v: usize,
    w: Interval,
) -> Result<(), Refusal>
    requires { (n ≤ 32) × (v < n) }
    ensures { Ended (narrowed_of (is_back way) state.old n v w) result state.old state.new }
{
    // An array of fixed size, since there is no heap.
    let mut x = [0i64; 64];
    let mut sums = [0i64; 128];
    let x = &mut x[..2 * n];
    copy_out(x, state, BOX);
    let old = read(x, v);
    if !is_acceptable(old) {
        return Err(Refusal::NotDue);
    }
    let new = intersection(w, old);
    if is_empty(new) {
        return Err(Refusal::Empty(v + 1));
    }
    narrow_to(n, way, state, v, new, x, &mut sums[..4 * n])
}
