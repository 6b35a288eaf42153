#![tactic(auto)]
// Exact fractions and what the four steps mean for them: statements in specs/, proofs in proofs/.
pub mod claims;
