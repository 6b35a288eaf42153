#![tactic(auto)]
// Document 02, A5: what sweeping there and back gains. Statements and proofs only.
pub mod claims;
