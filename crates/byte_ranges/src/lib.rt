//! The texts of ranges of bytes: what a `Range` header says, and the range of a copy.
#![tactic(auto)]

mod read;

pub use read::read_range;
