// Claims about what this crate defines; docs/API.md says what such a function is.
ghost use Rattle.half_rows_afresh.specs.Claim.{SumsFresh, AsAfresh, ThereAndBack, NoWeightLost};

// After any list of operations, every kept sum that the half pass now due reads equals the one worked out afresh.
pub fn sums_fresh()
    ensures { SumsFresh }
{}

// Any list of operations ends as it would if nothing were kept.
pub fn as_afresh()
    ensures { AsAfresh }
{}

// From a load without a narrowing, the boxes are those of the pass there and back, repeated.
pub fn there_and_back()
    ensures { ThereAndBack }
{}

// From a load, with narrowings that hold the solution's weights, every box holds the solution.
pub fn no_weight_lost()
    ensures { NoWeightLost }
{}
