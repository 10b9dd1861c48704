//! The worked rows: what the definitions of the version machine compute on small stores.
#![tactic(auto)]

mod authorized;
mod buckets;
mod downloads;
mod ended;
mod keys;
mod large;
mod lifecycle;
mod limited;
mod listings;
mod locked;
mod uploads;

pub use authorized::{authorize, wrong_secret};
pub use buckets::{create_bucket, deletion_and_listing, locks_of_buckets, revision_conflict};
pub use downloads::{
    download_tokens, downloads_by_name_and_id, hiding_names, number_alone, ranges,
};
pub use ended::{begins, ends, numbers_spent, parts};
pub use keys::{deletion_of_keys, key_for_a_second, new_keys, pages_of_keys};
pub use large::{
    cancelled_large_file, default_at_the_finish, large_file_from_parts, part_sent_again,
};
pub use lifecycle::lifecycle_days;
pub use limited::{deleted_key, key_with_a_prefix, life_of_a_token};
pub use listings::{listing_of_versions, listing_with_folders};
pub use locked::{changes_of_retention, deletion_under_locks};
pub use uploads::{busy_upload_url, digest_at_end, small_upload};
