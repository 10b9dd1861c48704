//! Object Lock: which of its rules keeps a version, or its retention, as it is. No call here takes memory.
#![tactic(auto)]

mod default;
mod delete;
mod retention;
mod rules;

pub use default::{default_until, own_or_default};
pub use delete::may_delete;
pub use retention::may_set_retention;
