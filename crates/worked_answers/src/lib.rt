//! The worked answers: the bodies that the forms of the wire give to what the machine answers.
#![tactic(auto)]

mod accounts;
mod buckets;
mod files;
mod keys;
mod listings;

pub use accounts::{authorize_body, limited_authorize_body, refused_authorize_body};
pub use buckets::{bucket_bodies, list_bodies, url_bodies};
pub use files::{change_bodies, info_bodies, large_file_bodies, upload_bodies};
pub use keys::{key_bodies, keys_bodies, new_key_bodies};
pub use listings::{names_bodies, part_bodies, version_bodies};
