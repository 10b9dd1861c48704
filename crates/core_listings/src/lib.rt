//! Listings, as the state in memory decides them.
#![tactic(auto)]

mod asks;
mod buckets;
mod files;
mod pages;
mod parts;
mod rows;
mod shown_pages;

pub use buckets::list_buckets;
pub use files::{list_file_names, list_file_versions, list_unfinished_large_files};
pub use parts::list_parts;
