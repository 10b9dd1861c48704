//! Bytes that come one by one.

ghost use Rattle.std.specs.Prelude.{◌<◌, ◌≤◌, length, take};
ghost use Rattle.http_edge.specs.declared.cut.Cut.TheVariants.{NotYet};
ghost use Rattle.http_edge.specs.Cut.{IsCut};

use http_edge::{Cut, cut_head};

// So many bytes were searched without an end, once `came` have come.
fn search_on(bytes: &[u8], came: usize, seen: usize) -> usize
    requires order { seen ≤ came }
    requires within { came ≤ length bytes.now }
    requires none { 0 < seen → IsCut (take seen bytes.now) NotYet }
    ensures order { result ≤ came }
    ensures none { 0 < result → IsCut (take result bytes.now) NotYet }
{
    match cut_head(&bytes[..came], seen) {
        Cut::NotYet => came,
        _ => seen,
    }
}

/// Searches for the end of a head whenever a byte has come; so many bytes were searched without one.
pub fn pieces(bytes: &[u8]) -> usize {
    let mut seen = 0usize;
    let mut came = 0usize;
    'bytes: while came < bytes.len() {
        came += 1;
        seen = search_on(bytes, came, seen);
    }
    seen
}
