// Claims about what this crate defines; docs/API.md says what such a function is.
ghost use Rattle.samples.specs.Table.{Agrees};
ghost use Rattle.samples.specs.Sheet.{Prints};

// The definitions give the starred lines.
pub fn table_agrees()
    ensures { Agrees }
{}

// The definition of the sheet gives the program's sample, byte by byte.
pub fn sheet_agrees()
    ensures { Prints }
{}
