//! The open connections: what the bytes that come on them ask for, in whatever pieces they come,
//! and the replies that are pending on them.
#![tactic(auto)]

mod conn;
mod incoming;
mod table;

pub use incoming::MOST_HELD;
pub use table::{Conns, MOST_OF_REQUEST, TooMany};
