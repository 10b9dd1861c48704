//! Calls that give tokens, on the state in memory.
#![tactic(auto)]

mod account;
mod given;
mod urls;

pub use account::authorize;
pub use urls::{get_download_authorization, get_upload_part_url, get_upload_url};
