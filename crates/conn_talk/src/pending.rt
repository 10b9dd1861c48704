//! Replies that are under way.

use b2_base::Blob;

/// A reply, of which the first bytes were sent.
#[derive(Drop)]
pub struct Pending<B> {
    /// What is sent first.
    pub text: Blob,
    /// What is sent after it.
    pub body: Option<B>,
    /// How many bytes the body has.
    pub len: u64,
    /// How many bytes were sent, of the text and the body together.
    pub sent: u64,
    /// Whether the connection stays open after it.
    pub stay: bool,
}
