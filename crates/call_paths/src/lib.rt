//! The paths of calls, both ways: which call a path is for, and the path of a call.
#![tactic(auto)]

mod laws;
mod read;
mod routes;
mod write;

pub use laws::{one_path, one_route, path_read_back};
pub use read::{download_parts, read_path};
pub use routes::{Route, route_of};
pub use write::{write_download_path, write_name_path, write_part_path, write_upload_path};
