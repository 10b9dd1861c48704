//! What the requests of a connection make: what answers them, and the acts that bytes bring.
#![tactic(auto)]

mod acts;
mod answering;
mod ends;
mod replies;

pub use acts::carry_all;
pub use answering::Answering;
pub use ends::End;
pub use replies::{Reply, refusal_text, reply_text};
