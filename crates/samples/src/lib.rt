#![tactic(auto)]
// Document 01's starred samples: the table is in specs/, the proof that the definitions give it in proofs/.
pub mod claims;
