//! What the bytes of a connection ask for, one request after the other, whatever pieces they come
//! in: the acts that they bring, the replies that are pending, and the laws of both.
#![tactic(auto)]

mod act;
mod laws;
mod pending;

pub use act::Act;
pub use laws::{asked_as_it_comes, cut_into_pieces, ends_of_connections, one_asked, one_turn};
pub use pending::Pending;
