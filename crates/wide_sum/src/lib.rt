#![tactic(auto)]
// Exact sums beyond 64 bits: of products of ends, unrounded.
pub mod internal;

// A whole number: high · 2^64 + low. It is no i128, since the edits carry_lost, left_of_2_64 and lifted_by_one_less name its two words.
#[derive(Clone, Copy, Debug, PartialEq, Eq)]
pub struct Wide {
    pub high: i64,
    pub low: u64,
}

// An interval with such ends. How far they are from 0 (Near) stands in the contracts and not in the type: every sum moves it.
#[derive(Clone, Copy, Debug, PartialEq, Eq)]
pub struct WideInterval {
    pub lo: Wide,
    pub hi: Wide,
}
