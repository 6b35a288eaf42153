// A half pass over the rows, a narrowing of one component, and the state that both read and leave.
pub mod load;
pub mod narrow;
pub mod operations;
pub mod pass;
pub mod row;
pub mod short;
pub mod state;
pub mod tested;
pub mod way;
