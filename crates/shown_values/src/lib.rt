//! What answers show of buckets, files, keys and parts, by what the key that asks may read.
#![tactic(auto)]

mod account;
mod bucket;
mod file;
mod key;
mod length;
mod part;
mod reads;

pub use account::{show_account, show_limit};
pub use bucket::show_bucket;
pub use file::{show_file, show_folder, show_name};
pub use key::show_key;
pub use length::content_length;
pub use part::show_part;
pub use reads::may_read;
