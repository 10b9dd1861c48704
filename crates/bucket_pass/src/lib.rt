//! What a pass of the lifecycle rules does to a whole bucket, in one walk over its rows.
#![tactic(auto)]

mod look;
mod plan;
mod walk;

pub use plan::plan_bucket;
pub use walk::NamePlan;
