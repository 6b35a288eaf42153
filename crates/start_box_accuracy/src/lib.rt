#![tactic(auto)]
// What a start box is worth: statements in specs/, proofs in proofs/.
pub mod claims;
