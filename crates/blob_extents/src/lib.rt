//! Contents in extents: each is written as it comes, with its digest, made safe, kept, looked at
//! and released, and its bytes stay while somebody holds it.
#![tactic(auto)]

mod blobs;
mod laws;
mod states;

pub use blobs::Blobs;
pub use laws::{read_after_release, what_is_read};
pub use states::{Kept, Pin, Sealed, Spent, Staging};
