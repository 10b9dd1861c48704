//! Names of buckets and files, and how they are escaped.
#![tactic(auto)]

mod bucket;
mod decode;
mod escape;
mod file;
mod folder;
mod info;
mod laws;
mod name;

pub use bucket::{
    BucketFault, BucketName, BucketRule, LEAST_BUCKET_NAME, MOST_BUCKET_NAME, bucket_name,
};
pub use decode::{EscapeFault, decode_name};
pub use escape::{ESCAPED, encode_name, encode_text};
pub use file::{FileName, FileRule, MOST_FILE_NAME, NameFault, file_name};
pub use folder::{folder_ends, folder_of, is_prefix};
pub use info::{InfoFault, InfoPairs, MOST_INFO, MOST_KEY, MOST_PAIRS, info_pairs};
pub use laws::escaped_names;
pub use name::{Name, NameRule};

#[cfg(test)]
mod tests;
