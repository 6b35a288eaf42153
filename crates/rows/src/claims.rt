// Claims about what this crate defines; docs/API.md says what such a function is.
ghost use Rattle.rows.specs.Exact.{OnceEncloses};
ghost use Rattle.rows.specs.Whole.{WholeRowOnce};

// A row that is rounded once encloses the exact sum, for any number of products.
pub fn once_encloses()
    ensures { OnceEncloses }
{}

// Whole units added to a row that is rounded once are the whole row rounded once.
pub fn whole_row_once()
    ensures { WholeRowOnce }
{}
