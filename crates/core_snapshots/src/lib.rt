//! What is read out of a whole state in memory: the records that stand for it, the extents of its
//! contents, and how much it holds.
#![tactic(auto)]

mod copies;
mod counted;
mod held;
mod numbered;
mod of_version;
mod taken;

pub use counted::counts;
pub use held::extents;
pub use taken::snapshot;
