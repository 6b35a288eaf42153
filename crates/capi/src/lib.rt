#![tactic(auto)]
// The calls for programs in C and Rust, in the archive that 'tools/archive capi' makes. Each call has a function of its own: C knows them by name.
pub mod boxes;
pub mod halves;
pub mod lists;
pub mod steps;
pub mod sweeps;
pub mod systems;
pub mod texts;
