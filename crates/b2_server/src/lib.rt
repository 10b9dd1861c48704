//! The server: what `b2d` does, over any source and sink.
#![tactic(auto)]

mod answering;
mod authorize;
mod laws;
mod run;
mod store;

pub use laws::{one_output, served_output};
pub use run::{Status, run_b2d};
