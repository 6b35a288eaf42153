// Where the parts of a state stand, read and written. C lends it as a slice of numbers; all but size take it as an array, whose type holds its length.
ghost use Rattle.std.specs.Prelude.{◌≡◌, ◌≤◌, ◌<◌, MatchOption, length};
ghost use Rattle.half_rows.specs.State.{size_of, turn_of, due, with_box, with_sums};
ghost use Rattle.half_rows.specs.Code.{is_back};

use crate::internal::way::Way;
use inputs::internal::copy::fill;

pub const LENGTH: usize = 2_434;

pub const BOX: usize = 2;

pub const RIGHT: usize = 66;

pub const LEFTS: usize = 130;

pub const RIGHTS: usize = 258;

pub const MATRIX: usize = 386;

#[tactic(auto, unfolding(crate::specs::State::size_of, crate::specs::State::up_to))]
// The size, if a system is loaded.
pub fn size(state: &[i64]) -> Option<usize>
    ensures { MatchOption result (size_of state.now ≡ 0)
        (λ n. (size_of state.now ≡ n) × (0 < n) × (n ≤ 32)) }
{
    if state.len() != LENGTH {
        return None;
    }
    match state[0] {
        n @ 1..=32 => Some(n as usize),
        _ => None,
    }
}

#[tactic(auto, unfolding(crate::specs::State::turn_of, crate::specs::State::up_to, crate::specs::State::due))]
// The half pass that is due.
pub fn turn(state: &[i64; LENGTH]) -> Option<Way>
    ensures { MatchOption result (turn_of state.now ≡ 0) (λ w. turn_of state.now ≡ due (is_back w)) }
{
    match state[1] {
        1 => Some(Way::Up),
        2 => Some(Way::Down),
        _ => None,
    }
}

// Box and sums of one side become these.
pub fn put_parts(state: &mut [i64; LENGTH], way: Way, x: &[i64], sums: &[i64])
    requires { (length x.now ≤ 64) × (length sums.now ≤ 128) }
    ensures { state.new ≡ with_sums (with_box state.old x.now) (is_back way) sums.now }
{
    fill(state, x, BOX);
    fill(state, sums, way.sums_place());
}
