// Claims about what this crate defines; docs/API.md says what such a function is.
ghost use Rattle.fraction.specs.Meaning.{Meaning};

// Each step gives the narrowest interval with ends in units that holds every exact result, for any scale.
pub fn meaning()
    ensures { Meaning }
{}
