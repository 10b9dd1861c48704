//! What a server is to do for a list of events on its connections, and what holds of all that it
//! sends. Definitions and laws.
#![tactic(auto)]

mod laws;
mod reads;

pub use laws::{
    every_run_is_served, link_has_what_was_sent, nothing_sent_unasked, one_run,
    uploads_are_on_connections, whole_requests_are_answered,
};
pub use reads::Requests;
