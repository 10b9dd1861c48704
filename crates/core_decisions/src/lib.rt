//! What a call comes to on the state in memory: its answer, or the record that is to be written first.
#![tactic(auto)]

mod decision;

pub use decision::{Decision, plain_refusal, refusal};
