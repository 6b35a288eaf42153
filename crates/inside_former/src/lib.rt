#![tactic(auto)]
// Document 02, A4: what rounding a row once changed. Statements and proofs only.
pub mod claims;
