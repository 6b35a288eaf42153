// Claims about what this crate defines; docs/API.md says what such a function is.
ghost use Rattle.inside_former.specs.Sweeps.{InsideFormer};
ghost use Rattle.inside_former.specs.Elimination.{SixNeverNew};
ghost use Rattle.inside_former.specs.Example.{SevenCanBeNew};

// Every box lies inside the former one after as many sweeps, in every list of calls of which none says 7.
pub fn inside_former()
    ensures { InsideFormer }
{}

// An elimination is refused only where it was refused before, and its box lies inside the former one.
pub fn six_never_new()
    ensures { SixNeverNew }
{}

// A call from a caller's own box can say 7 where it settled before.
pub fn seven_can_be_new()
    ensures { SevenCanBeNew }
{}
