//! Copies inside the store, as the state in memory decides them: before their bytes are copied, and after.
#![tactic(auto)]

mod file;
mod part;
mod plan;

pub use file::{check_file_copy, end_file_copy};
pub use part::{check_part_copy, end_part_copy};
pub use plan::CopyPlan;
