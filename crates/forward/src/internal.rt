// The forward part of an elimination, and I − B before it.
// n and the working copy stay two parameters: a struct that lends the copy to change lets n change too, so each method would have to say that it does not, and each loop to keep it.
pub mod formed;
pub mod forward;
pub mod pivot;
pub mod step;
