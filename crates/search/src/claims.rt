// Claims about what this crate defines; docs/API.md says what such a function is.
ghost use Rattle.search.specs.Claim.{FirstByte};

// A search gives the place of the first byte sought, and 'none' exactly if there is none.
pub fn first_byte_found()
    ensures { FirstByte }
{}
