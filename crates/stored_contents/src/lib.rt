//! The contents of a store on one disk: those that its versions own, those that come on connections, and
//! those that are read on connections. What is read stays until its last reader ends, though its owner
//! gives it up.
#![tactic(auto)]

mod contents;
mod copies;
mod incoming;
mod laws;
mod outgoing;
mod readers;
mod uploads;

pub use contents::{Contents, StoreFault};
pub use laws::any_order;
pub use uploads::Whole;
