#![tactic(auto)]
// Sums beyond 64 bits, four numbers each, in the state that C lends as numbers.
pub mod internal;
