//! The worked cases: what the definitions of the machine compute over runs and at their edges.
#![tactic(auto)]

mod cancelled;
mod copies;
mod deletions;
mod keys;
mod limits;
mod order;
mod pages;
mod records;
mod runs;
mod steps;
mod types;
mod uploads;

pub use cancelled::calls_after_a_cancel;
pub use copies::{copies_as_files, copies_as_parts, long_copies, refused_copies};
pub use deletions::{hold_put_on, overlapping_rules, refused_deletions};
pub use keys::{key_of_two_buckets, seconds_of_a_key};
pub use limits::{
    downloads_from_an_open_bucket, file_information, listing_of_buckets, other_buckets,
    share_tokens,
};
pub use order::{order_of_call_rules, order_of_token_rules};
pub use pages::page_sizes;
pub use records::{
    lists_by_number, records_of_buckets, records_of_keys, records_of_numbers, records_of_versions,
};
pub use runs::{moments, restart, snapshots, uploads_in_a_run};
pub use steps::{no_steps, uploads_by_connection};
pub use types::type_by_extension;
pub use uploads::{empty_upload, parts_of_nine_bytes, upper_case_digits};
