#![tactic(auto)]
// The sum of a row's products: a definition, a claim, and a function for the crates above.
pub mod claims;
pub mod internal;
