// Claims about what `transfers` defines; docs/API.md says what such a function is.
ghost use Rattle.transfers_as_square.specs.Claim.{SquareStands, SameAsSquare, NumbersAgree, ListCovered};

// In the square each listed pair has its own interval, and every other is nought.
pub fn square_stands()
    ensures { SquareStands }
{}

// Where the list's own tests pass, each call returns and leaves what the square's call does.
pub fn same_as_square()
    ensures { SameAsSquare }
{}

// Where the list is not too long and 11 and 12 pass, the numbers always agree, and the places but for 3.
pub fn numbers_agree()
    ensures { NumbersAgree }
{}

// The accuracy rule for eliminations and lists of sweep calls from a list of transfers.
pub fn list_is_covered()
    ensures { ListCovered }
{}
