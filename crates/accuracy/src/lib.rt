#![tactic(auto)]
// What the calls are worth: statements in specs/, proofs in proofs/.
pub mod claims;
