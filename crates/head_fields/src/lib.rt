//! What the server reads of a request's head: its token, and the calls that download.
#![tactic(auto)]

mod downloads;
mod query;
mod token;

pub use downloads::{download_by_id, download_by_name};
pub use query::first_param;
pub use token::{download_token, token_of};
