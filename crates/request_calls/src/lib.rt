//! What a request asks for: one reader over all calls.
#![tactic(auto)]

mod asked;
mod laws;

pub use asked::{Asked, Asking, read_asked};
pub use laws::{one_asking, one_upload};
