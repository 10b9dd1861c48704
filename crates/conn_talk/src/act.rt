//! What the bytes of a connection ask for.

use b2_base::Blob;
use b2_types::Fault;
use http_edge::Head;

/// What a piece of a connection's bytes brings. The request in a head stays where its client asks
/// for another one on the connection and its connection has one left.
#[derive(Drop)]
pub enum Act {
    /// A request that is no upload, and its body.
    Whole(Head, Blob),
    /// An upload begins.
    Begin(Head),
    /// Bytes of its body, after those before them.
    Body(Blob),
    /// Its body is whole.
    End,
    /// The form of a request is refused.
    Refuse(Fault),
}
