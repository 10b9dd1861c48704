//! What calls come to on the whole state of a store in memory: each answer, and the state after it.
#![tactic(auto)]

mod answers;
mod decisions;
mod quiet;

pub use answers::ask;
pub use decisions::decide;
