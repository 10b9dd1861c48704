//! Workloads: scripts of requests that a seed determines, over a fresh store. Each request comes on
//! a connection of its own.
#![tactic(auto)]

mod laws;
mod make;
mod texts;

pub use laws::{one_connection_each, small_workloads_are_scripts, tokens_are_known};
pub use make::make_workload;
