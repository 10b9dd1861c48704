//! What the server reads of a call: its fields, in the order of a table for each call.
#![tactic(auto)]

mod buckets;
mod call;
mod files;
mod information;
mod listings;
mod made;

pub use call::{one_call, read_call};
