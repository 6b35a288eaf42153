#![tactic(auto)]

pub mod internal;

// A lent slice for test 2: its place in document 01's table, the numbers held, the numbers wanted.
#[derive(Clone, Copy)]
pub struct Slice {
    pub place: usize,
    pub held: usize,
    pub wanted: usize,
}
