// Claims about what this crate defines; docs/API.md says what such a function is.
ghost use Rattle.inside_ordinary.specs.Passes.{InsideOrdinary, SameSettled};

// Every box after a pass there and back lies inside the one after as many sweeps, unless the passes are refused.
pub fn inside_ordinary()
    ensures { InsideOrdinary }
{}

// Where sweeps settle and passes do, they settle at the same box.
pub fn same_settled()
    ensures { SameSettled }
{}
