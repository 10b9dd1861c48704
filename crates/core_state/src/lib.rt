//! The whole state of a store in memory, which clauses see as the state of the version machine.
#![tactic(auto)]

mod buckets;
mod changed;
mod current;
mod keys;
mod large;
mod lookups;
mod made;
mod parts;
mod pass_steps;
mod state;
mod taken;
mod tokens;
mod uploads;

pub use large::contents_in;
pub use made::{marker_of, version_of};
pub use state::Core;
