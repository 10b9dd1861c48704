//! The forms that the wire of the server and that of the client share: requests, the bodies of answers,
//! Basic credentials and the texts of digests.
#![tactic(auto)]

mod digest;
mod request;

pub use digest::digest_text;
pub use request::Request;
