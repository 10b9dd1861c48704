//! The version machine: what a store knows, and what each step makes of it. It is made of definitions, in
//! specs/, and of their laws.
#![tactic(auto)]

mod laws;
mod rows;

pub use laws::first_failing_rule;
pub use rows::{bounds_of_pages_and_passes, order_of_token_rules, starts_in_a_store};
