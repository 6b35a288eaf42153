#![tactic(auto)]
// Integers: floor and ceiling division, minimum and maximum. The laws of ℤ that every crate above cites are in proofs/.
pub mod internal;
