//! Calls on keys, as the state in memory decides them, and the look-up of a key.
#![tactic(auto)]

mod create;
mod keys;
mod lookup;
mod pages;

pub use create::create_key;
pub use keys::{delete_key, list_keys};
pub use lookup::{key_by, key_of_id};
