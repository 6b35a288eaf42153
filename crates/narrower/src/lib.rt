#![tactic(auto)]

pub mod internal;

ghost use Rattle.std.specs.Prelude.{◌≡◌};
ghost use Rattle.narrower.specs.Choice.{choice_number, chosen, Handed};

use crate::internal::choose;

// Which of two boxes is the narrower. These are no outcomes: their numbers are not in document 01's table.
#[derive(Clone, Copy, Debug, PartialEq, Eq)]
pub enum Choice {
    Neither,
    First,
    Second,
}

impl Choice {
    // the number that programs in C get
    pub fn number(self) -> u64
        ensures { result ≡ choice_number self }
    {
        match self {
            Choice::Neither => 0,
            Choice::First => 1,
            Choice::Second => 2,
        }
    }
}

#[tactic(auto, unfolding(crate::specs::Choice::Handed))]
// The lent box with the smaller sum of widths, itself; an empty part of the first where neither is a box of n components.
pub fn narrower<'a>(n: usize, first: &'a [i64], second: &'a [i64]) -> &'a [i64]
    ensures { Handed (chosen n first.now second.now) first.entry second.entry result }
{
    match choose(n, first, second) {
        Choice::First => first,
        Choice::Second => second,
        Choice::Neither => &first[..0],
    }
}
