//! What the server reads of the head of an upload: its headers, in the order of a table for each kind of
//! upload.
#![tactic(auto)]

mod information;
mod kinds;
mod table;
mod text;
mod upload;

pub use upload::{read_file_upload, read_part_upload};
