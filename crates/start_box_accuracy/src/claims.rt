// Claims about what this crate defines; docs/API.md says what such a function is.
ghost use Rattle.start_box_accuracy.specs.Claim.{StartBoxHolds, StartBoxKept};

// An accepted start box holds every solution of every balance within the bounds.
pub fn start_box_holds()
    ensures { StartBoxHolds }
{}

// And so does every box that sweep calls make of it.
pub fn start_box_kept()
    ensures { StartBoxKept }
{}
