#![tactic(auto)]
// What a list of transfers stands for.
pub mod claims;
