//! Tables of values and their names: capabilities, calls, faults and types of files.
#![tactic(auto)]

mod call;
mod cap;
mod cap_set;
mod fault;
mod file_kind;
mod placed;
mod table;

pub use call::{CallName, calls};
pub use cap::{CAPS, Cap, caps, every_cap};
pub use cap_set::CapSet;
pub use fault::{FaultKind, faults};
pub use file_kind::{FileKind, types};
pub use placed::Placed;
pub use table::Table;

#[cfg(test)]
mod tests;
