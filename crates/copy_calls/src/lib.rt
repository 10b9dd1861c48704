//! Copies of files inside the store: which bytes are copied, why none are, and what they make. A
//! copy is a download followed by an upload.
#![tactic(auto)]

mod file;
mod laws;
mod part;
mod refusal;
mod span;

pub use file::{CopiedBytes, FilePlan, copy_file, copy_upload, may_copy_file};
pub use laws::copies_are_uploads;
pub use part::{copy_part, may_copy_part};
pub use refusal::{CopyRefusal, fault_of};
pub use span::{copy_span, misses, span_of};
