// Claims about what this crate defines; docs/API.md says what such a function is.
ghost use Rattle.elimination.specs.Claim.{FiveExactly, SameUnlessFive};

// Both calls say 5 with pivot k exactly if they reach step k and every row from k on contains 0 in column k.
pub fn five_exactly()
    ensures { FiveExactly }
{}

// Both calls return and leave what they did without the search for a row, unless 5 was said then.
pub fn same_unless_five()
    ensures { SameUnlessFive }
{}
