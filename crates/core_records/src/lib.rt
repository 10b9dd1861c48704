//! Which records apply to a state in memory, and what they make of it.
#![tactic(auto)]

mod apply_record;
mod applying;
mod lifecycle;

pub use apply_record::{Applied, apply};
pub use applying::applies;
