//! The versions of a store in memory.
#![tactic(auto)]

mod versions;

pub use versions::Versions;
