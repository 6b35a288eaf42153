// Claims about what this crate defines; docs/API.md says what such a function is.
ghost use Rattle.report.specs.ReadBack.{NumberBack, LineBack, SheetBack};

// A printed number reads back as the number.
pub fn number_reads_back()
    ensures { NumberBack }
{}

// A printed line of bounds reads back as the box.
pub fn line_reads_back()
    ensures { LineBack }
{}

// The bounds on a sheet read back as the very box that the calculation reached.
pub fn sheet_reads_back()
    ensures { SheetBack }
{}
