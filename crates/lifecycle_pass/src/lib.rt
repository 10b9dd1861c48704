//! The lifecycle rules of a bucket, and what a pass does by them: which names it hides and which versions it
//! removes.
#![tactic(auto)]

mod laws;
mod plans;
mod rules;

pub use laws::{other_names_stay, plan_is_the_pass, plans_are_the_pass};
pub use plans::{Face, Plan, plan_name};
pub use rules::{RuleFault, rules_ok};
