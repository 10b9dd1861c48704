//! What a new version of a file is: its type, its retention, its number and its record, for
//! uploads, large files, copies and markers alike, and why there is none.
#![tactic(auto)]

mod body;
mod copies;
mod marker;
mod media;
mod refusal;
mod rules;
mod terms;
mod uploads;

pub use body::{Body, agrees, mark_of};
pub use copies::{copy_info, copy_name};
pub use marker::{HideRefusal, hide, hide_fault};
pub use media::{media_type, resolved_type, type_of_name};
pub use refusal::{LockRefusal, VersionRefusal, fault_of, lock_fault};
pub use rules::{lock_rules, next_number};
pub use terms::{VersionTerms, new_version};
pub use uploads::{may_upload, upload};
