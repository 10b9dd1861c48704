//! What the server reads of a call, and what it writes of an answer: the credentials of an
//! authorize call, and the body of every answer and refusal.
#![tactic(auto)]

mod account;
mod body;
mod bucket;
mod capabilities;
mod credentials;
mod file;
mod items;
mod key;
mod refusal;
mod shown;
mod to_json;

pub use body::{json_body, refusal_body, write_answer};
pub use credentials::{authorize_call, basic};
