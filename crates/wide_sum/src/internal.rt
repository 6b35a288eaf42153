pub mod rounding;
pub mod sum;
