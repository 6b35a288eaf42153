// From the numbers of a balance to what is printed.
pub mod calculation;
pub mod report;
pub mod sheet;
