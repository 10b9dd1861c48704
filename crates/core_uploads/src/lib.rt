//! Uploads on the state in memory, as the version machine begins, ends and loses them.
#![tactic(auto)]

mod begin;
mod end;
mod shown;

pub use begin::upload_begin;
pub use end::{upload_end, upload_lost};
