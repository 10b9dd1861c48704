//! The edge at which bytes become a request, and an answer becomes the head of a reply.
#![tactic(auto)]

mod content;
mod cut;
mod head;
mod headers;
mod laws;
mod length;
mod reply;
mod stay;

pub use cut::{Cut, MOST_HEAD, cut_as_it_comes, cut_head};
pub use head::{Head, read_head};
pub use laws::{one_received, one_request, received_as_it_comes};
pub use length::body_length;
pub use reply::reply_head;
