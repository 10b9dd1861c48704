//! Calls that hide, start, finish and download files, as the state in memory decides them.
#![tactic(auto)]

mod downloads;
mod hidden;
mod large;
mod shown;

pub use downloads::{download_by_id, download_by_name};
pub use hidden::hide_file;
pub use large::{finish_file, locked_caps, start_file};
pub use shown::show_made;
