//! Who may have what a call names, by the state in memory.
#![tactic(auto)]

mod fields;
mod judge;
mod named;
mod uploads;

pub use judge::asker_of;
pub use named::{
    account_bucket_for, account_for, bucket_for, buckets_for, call_for, copy_for, file_for,
    list_for, name_for, part_copy_for, path_for, prefix_for,
};
pub use uploads::{file_upload_for, part_upload_for, token_for};
