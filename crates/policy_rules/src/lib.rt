//! The policy: ten rules in their order, of which the first that fails is answered. No call here takes
//! memory.
#![tactic(auto)]

mod asked;
mod call;
mod known;
mod name;
mod place;
mod token;

pub use asked::{Asked, Asker, Fields, SomeBucket};
pub use call::call_rule;
pub use known::Known;
pub use name::name_rule;
pub use token::token_rule;
