pub mod marks;
pub mod word;
