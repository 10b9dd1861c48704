//! Requests.

use b2_base::Text;
use http_header::{HeaderMap, HeaderValue};

/// What the head of a request says (RFC 9112, sections 3 to 6).
#[derive(Drop)]
pub struct Request {
    pub method: Text,
    /// The target before its first question mark.
    pub path: Text,
    /// The target after it; empty where there is none.
    pub query: Text,
    /// Those that some call reads, by their names in lower case; all others are ignored.
    pub headers: HeaderMap<HeaderValue>,
    /// The bytes of the body; 0 where the request is for no call.
    pub length: u64,
    /// Whether the client asks for another request on the connection (RFC 9112, section 9.3).
    pub stay: bool,
}
