// Claims about what this crate defines; docs/API.md says what such a function is.
ghost use Rattle.sheet_accuracy.specs.Claim.{SheetCovered};

// Every solution of a text's balance lies within the bounds on its sheet.
pub fn sheet_is_covered()
    ensures { SheetCovered }
{}
