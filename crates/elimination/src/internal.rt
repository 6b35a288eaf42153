// The calculation, after the tests. n and the working copy stay two parameters, as in the forward part.
pub mod back;
pub mod solve;
