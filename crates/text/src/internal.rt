// Lines and fields are parted by search::first, eight bytes in a turn, and not by split, which goes byte by byte.
pub mod field;
pub mod lines;
pub mod names;
pub mod number;
pub mod values;
