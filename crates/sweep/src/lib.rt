#![tactic(auto)]

pub mod internal;

ghost use Rattle.std.specs.Prelude.{◌≡◌};
ghost use Rattle.outcome.specs.Run.{returned};
ghost use Rattle.inputs.specs.System.{system};
ghost use Rattle.sweep.specs.Calls.{sweep_call, symmetric_call, call};

use crate::internal::calls::swept;
use crate::internal::pass::Way;
use outcome::Outcome;

// What a sweep call of either kind returns: its outcome and the number of whole sweeps done. A 7 has a count too, so this is no Result with the count inside.
#[derive(Clone, Copy, Debug, PartialEq, Eq)]
pub struct Swept {
    pub outcome: Outcome,
    pub count: usize,
}

#[tactic(auto, using(crate::proofs::Log::sweep_called))]
// Tightens the lent box by at most so many sweeps.
pub fn sweep(n: usize, b_matrix: &[i64], b: &[i64], bounds: &mut [i64], allowed: usize) -> Swept
    ensures { returned result.outcome result.count bounds.new ≡
        call (system n b_matrix.now b.now) (sweep_call allowed) bounds.old }
{
    swept(n, Some(Way::There), b_matrix, b, bounds, allowed)
}

#[tactic(auto, using(crate::proofs::Log::symmetric_called))]
// Tightens the lent box by at most so many passes there and back, each counted as one sweep. Two names for two ways, since callers and C know the two calls by name.
pub fn symmetric_sweep(
    n: usize,
    b_matrix: &[i64],
    b: &[i64],
    bounds: &mut [i64],
    allowed: usize,
) -> Swept
    ensures { returned result.outcome result.count bounds.new ≡
        call (system n b_matrix.now b.now) (symmetric_call allowed) bounds.old }
{
    swept(n, Some(Way::ThereAndBack), b_matrix, b, bounds, allowed)
}
