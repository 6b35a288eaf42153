#![tactic(auto)]
// What a sheet is worth: a statement in specs/, its proof in proofs/.
pub mod claims;
