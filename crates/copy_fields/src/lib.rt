//! The fields of the calls that copy files, in the order of a table for each call.
#![tactic(auto)]

mod copies;
mod metadata;
mod range;

pub use copies::{copy_file, copy_part};
