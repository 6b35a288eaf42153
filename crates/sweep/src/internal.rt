// The sweeps, after the tests.
pub mod balance;
pub mod calls;
pub mod pass;
pub mod square;
pub mod tests;
