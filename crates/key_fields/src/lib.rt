//! The fields of the calls on keys, in the order of a table for each call.
#![tactic(auto)]

mod capabilities;
mod keys;
mod limits;

pub use keys::{create_key, delete_key, list_keys};
