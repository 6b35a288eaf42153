// The two ways of a half pass, and what lies on them.
ghost use Rattle.std.specs.Prelude.{◌≡◌, not, ◌≤◌, ◌<◌};
ghost use Rattle.half_rows.specs.Rows.{first, beside, begin};
ghost use Rattle.half_rows.specs.State.{sums_place};
ghost use Rattle.half_rows.specs.Code.{is_back, turn};

use crate::internal::state::{LEFTS, RIGHTS};

// From vat 1 to n, and from vat n to 1. The state that C lends holds the number of the one that is due, 1 or 2; any other number is of none.
#[derive(Clone, Copy, Debug, PartialEq, Eq)]
pub enum Way {
    Up = 1,
    Down = 2,
}

impl Way {
    // The way against this one.
    pub fn other(self) -> Way
        ensures { is_back result ≡ not (is_back self) }
    {
        match self {
            Way::Up => Way::Down,
            Way::Down => Way::Up,
        }
    }

    #[tactic(auto, unfolding(crate::specs::Code::turn))]
    // The component of turn k.
    pub fn component(self, n: usize, k: usize) -> usize
        requires { (k < n) × (n ≤ 32) }
        ensures { result ≡ turn (is_back self) n k }
    {
        match self {
            Way::Up => k,
            Way::Down => n - (k + 1),
        }
    }

    #[tactic(auto, unfolding(crate::specs::Rows::first))]
    // The components behind component i: the first of them, and how many.
    pub fn first(self, i: usize) -> usize
        requires { i < 32 }
        ensures { result ≡ first (is_back self) i }
    {
        match self {
            Way::Up => 0,
            Way::Down => i + 1,
        }
    }

    #[tactic(auto, unfolding(crate::specs::Rows::beside))]
    pub fn beside(self, n: usize, i: usize) -> usize
        requires { (i < n) × (n ≤ 32) }
        ensures { result ≡ beside (is_back self) n i }
    {
        match self {
            Way::Up => i,
            Way::Down => n - (i + 1),
        }
    }

    #[tactic(auto, unfolding(crate::specs::Rows::begin))]
    // The column in which the half row of row i begins.
    pub fn begin(self, i: usize) -> usize
        ensures { result ≡ begin (is_back self) i }
    {
        match self {
            Way::Up => 0,
            Way::Down => i,
        }
    }

    #[tactic(auto, unfolding(crate::specs::State::sums_place))]
    // Where the sums stand that this way works out.
    pub fn sums_place(self) -> usize
        ensures { result ≡ sums_place (is_back self) }
    {
        match self {
            Way::Up => LEFTS,
            Way::Down => RIGHTS,
        }
    }
}
