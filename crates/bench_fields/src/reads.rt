//! What is read, by the readers of calls and by the ports alone.

use crate::bodies::{own_call, port_keys};
use crate::heads::{own_authorize, own_upload, port_headers};
use rule_table::CallName;
use std::alloc::Global;

/// A way to read bytes.
#[derive(Clone, Copy, Debug, PartialEq, Eq)]
pub enum Read {
    /// `cut_head`, `read_head` and `read_asked` on a head.
    Authorize,
    /// `read_asked` on a head, of which the ports made a request.
    Upload,
    /// `read_call` on a body that lists names.
    Names,
    /// `read_call` on a body that creates a bucket.
    Bucket,
    /// The ports' own read of a head, each header into a map.
    Headers,
    /// The port's own read of a body.
    Value,
}

/// The way of this name.
pub fn read_of(what: &str) -> Option<Read> {
    match what {
        "authorize" => Some(Read::Authorize),
        "upload" => Some(Read::Upload),
        "names" => Some(Read::Names),
        "bucket" => Some(Read::Bucket),
        "ports_authorize" | "ports_upload" => Some(Read::Headers),
        "ports_names" | "ports_bucket" => Some(Read::Value),
        _ => None,
    }
}

fn once(alloc: Global, read: Read, bytes: &[u8]) -> Option<usize> {
    match read {
        Read::Authorize => own_authorize(alloc, bytes),
        Read::Upload => own_upload(alloc, bytes),
        Read::Names => own_call(alloc, CallName::ListFileNames, bytes),
        Read::Bucket => own_call(alloc, CallName::CreateBucket, bytes),
        Read::Headers => port_headers(alloc, bytes),
        Read::Value => port_keys(alloc, bytes),
    }
}

/// The bytes are read so many times.
pub fn read_times(alloc: Global, read: Read, bytes: &[u8], times: u64) -> Option<usize> {
    let mut sum = 0usize;
    for _ in 0..times {
        sum = sum.wrapping_add(once(alloc, read, bytes)?);
    }
    Some(sum)
}
