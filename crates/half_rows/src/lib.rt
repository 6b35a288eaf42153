#![tactic(auto)]
// A pass there and back in halves: a state that the caller lends keeps the box, and of every row the sums left and right of the diagonal, so that no half pass works them out twice.
pub mod internal;

ghost use Rattle.std.specs.Prelude.{◌≡◌, true, false};
ghost use Rattle.outcome.specs.Run.{answered};
ghost use Rattle.interval.specs.Interval.{ends};
ghost use Rattle.inputs.specs.System.{system};
ghost use Rattle.half_rows.specs.Operations.{load, half_pass, narrowing, operate};
ghost use Rattle.half_rows.specs.Code.{is_back};

use crate::internal::load::Load;
use crate::internal::operations::{half, narrow as narrow_component};
use crate::internal::state::{LENGTH, size, turn};
use crate::internal::way::Way;
use interval::Interval;
use interval::internal::is_acceptable;
use outcome::Refusal;
use sweep::internal::tests::tested;

// Loads a balance and a start box, and replaces the state. Up is due then.
pub fn load(
    state: &mut [i64],
    n: usize,
    b_matrix: &[i64],
    b: &[i64],
    bounds: &[i64],
) -> Result<(), Refusal>
    ensures { answered result state.new ≡
        operate (load (system n b_matrix.now b.now) bounds.now) state.old }
{
    let state = state.as_mut_array::<LENGTH>().ok_or(Refusal::NotDue)?;
    tested(n, b_matrix, b, bounds, 1)?;
    let load = Load {
        n,
        matrix: b_matrix,
        right: b,
        bounds,
    };
    load.load_into(state);
    Ok(())
}

// The half pass of either way, if it is due.
fn half_pass(state: &mut [i64], way: Way) -> Result<(), Refusal>
    ensures { answered result state.new ≡ operate (half_pass (is_back way)) state.old }
{
    let state = state.as_mut_array::<LENGTH>().ok_or(Refusal::NotDue)?;
    let n = size(state).ok_or(Refusal::NotDue)?;
    if turn(state) != Some(way) {
        return Err(Refusal::NotDue);
    }
    half(n, way, state)
}

// The half pass from vat 1 to n. Down is due then.
pub fn half_up(state: &mut [i64]) -> Result<(), Refusal>
    ensures { answered result state.new ≡ operate (half_pass false) state.old }
{
    half_pass(state, Way::Up)
}

// The half pass from vat n to 1. Up is due then. Two names for two ways, since callers and C know the two calls by name.
pub fn half_down(state: &mut [i64]) -> Result<(), Refusal>
    ensures { answered result state.new ≡ operate (half_pass true) state.old }
{
    half_pass(state, Way::Down)
}

// Narrows one vat, from 1, by a weighed interval.
pub fn narrow(state: &mut [i64], component: usize, lo: i64, hi: i64) -> Result<(), Refusal>
    ensures { answered result state.new ≡ operate (narrowing component (ends lo hi)) state.old }
{
    let state = state.as_mut_array::<LENGTH>().ok_or(Refusal::NotDue)?;
    let n = size(state).ok_or(Refusal::NotDue)?;
    let way = turn(state).ok_or(Refusal::NotDue)?;
    if component < 1 || n < component {
        return Err(Refusal::NoComponent);
    }
    let w = Interval { lo, hi };
    if !is_acceptable(w) {
        return Err(Refusal::Ends(0));
    }
    narrow_component(n, way, state, component - 1, w)
}
