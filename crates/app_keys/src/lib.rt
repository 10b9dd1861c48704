//! Application keys: how they are made, deleted and listed, the texts of their ids and secrets, and how a
//! secret is checked.
#![tactic(auto)]

mod create;
mod id;
mod page;
mod refusal;
mod remove;
mod secret;

pub use create::{NewKey, keys_create};
pub use id::KeyId;
pub use page::{KeyPage, keys_page};
pub use refusal::{KeyRefusal, fault_of};
pub use remove::keys_delete;
pub use secret::{check_secret, has_hash, secret_text};
