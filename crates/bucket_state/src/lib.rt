//! Buckets: how they are made, updated and removed, and which of them a listing shows.
#![tactic(auto)]

mod copies;
mod create;
mod list;
mod refusal;
mod remove;
mod update;

pub use copies::{copy_name, copy_rules};
pub use create::buckets_create;
pub use list::buckets_list;
pub use refusal::{BucketRefusal, fault_of};
pub use remove::buckets_remove;
pub use update::buckets_update;
