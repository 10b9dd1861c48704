//! Calls on buckets and on files, as the state in memory decides them.
#![tactic(auto)]

mod bad;
mod buckets;
mod files;
mod locks;

pub use bad::bad_call;
pub use buckets::{create_bucket, delete_bucket, update_bucket};
pub use files::{cancel_file, file_info};
pub use locks::{delete_version, update_hold, update_retention};
