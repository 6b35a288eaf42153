// Claims about what this crate defines; docs/API.md says what such a function is.
ghost use Rattle.accuracy.specs.Claim.{AccuracyRule};
ghost use Rattle.accuracy.specs.Changing.{FewChanges};
ghost use Rattle.accuracy.specs.Example.{Example};

// No true weight leaves the bounds, and no bound widens, whatever list of sweep calls follows.
pub fn accuracy_rule()
    ensures { AccuracyRule }
{}

// In each call, the sweeps that change the box are never more than the sum of its start widths.
pub fn few_changes()
    ensures { FewChanges }
{}

// The rule is not about nothing: a solution of document 01's fifth sample.
pub fn example()
    ensures { Example }
{}
