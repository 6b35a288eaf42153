#![tactic(auto)]
// What keeping the sums changes: nothing but the time.
pub mod claims;
