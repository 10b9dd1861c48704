//! What a server does at each event on its connections.
#![tactic(auto)]

mod bytes;
mod events;
mod handing;
mod turns;

pub use events::serve_event;
pub use turns::serve;
