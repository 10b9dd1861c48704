//! What comes on the connections.

use std::alloc::Global;

/// A request whose last header has so many bytes, with a body of so many.
pub fn request(alloc: Global, padding: usize, body: usize) -> Option<Vec<u8>> {
    let head = format!(in alloc;
        "POST /b2api/v3/b2_authorize_account HTTP/1.1\r\nHost: 127.0.0.1:8080\r\nContent-Length: {body}\r\nX-Padding: "
    ).ok()?;
    let mut bytes = Vec::from_slice(alloc, head.as_bytes()).ok()?;
    for _ in 0..padding {
        bytes.push(b'x').ok()?;
    }
    bytes.extend_from_slice(b"\r\n\r\n").ok()?;
    for _ in 0..body {
        bytes.push(b'{').ok()?;
    }
    Some(bytes)
}
