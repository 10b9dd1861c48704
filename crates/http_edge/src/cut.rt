//! Where the head of a request ends.

ghost use Rattle.std.specs.Prelude.{◌≡◌, ◌≢◌, ◌↔◌, ◌+◌, ◌<◌, ◌≤◌, ℕ, List, take, IsTrue, length, slice_index};
ghost use Rattle.http_edge.specs.declared.cut.Cut.{Cut as TheCut};
ghost use Rattle.http_edge.specs.declared.cut.Cut.TheVariants.{Head, NotYet};
ghost use Rattle.http_edge.specs.Cut.{IsCut, IsEnd, NoEnd, EndsLine, IsOther, HasOther};

use memchr::memchr;

/// What the bytes that came so far are cut to.
#[derive(Clone, Copy, Debug, PartialEq, Eq)]
pub enum Cut {
    /// The head has so many bytes, its empty line included.
    Head(usize),
    /// The head has not ended.
    NotYet,
    /// The head has not ended in 16,384 bytes.
    TooLong,
}

/// The most bytes of a head.
pub const MOST_HEAD: usize = 16_384;

// Whether an empty line ends after the byte at this place.
fn ends_line(bytes: &[u8], at: usize) -> bool
    requires { at < length bytes.now }
    ensures { IsTrue result ↔ EndsLine bytes.now at }
{
    if bytes[at] != b'\n' || at == 0 {
        return false;
    }
    if bytes[at - 1] == b'\n' {
        return true;
    }
    if bytes[at - 1] != b'\r' || at == 1 {
        return false;
    }
    bytes[at - 2] == b'\n'
}

fn is_other(byte: u8) -> bool
    ensures { IsTrue result ↔ IsOther byte }
{
    (byte != b'\r') & (byte != b'\n')
}

// Whether a byte that is neither CR nor LF stands before the place. The way back ends at an empty line: such
// a byte before that one would make it an end.
fn has_begun(bytes: &[u8], at: usize) -> bool
    requires within { at < length bytes.now }
    requires none { NoEnd bytes.now at }
    ensures { IsTrue result ↔ HasOther bytes.now at }
{
    let mut from = at;
    'back: while from > 0 {
        from -= 1;
        if is_other(bytes[from]) {
            return true;
        }
        if ends_line(bytes, from) {
            return false;
        }
    }
    false
}

// Whether the head ends after the byte at this place.
fn ends_head(bytes: &[u8], at: usize) -> bool
    requires within { at < length bytes.now }
    requires none { NoEnd bytes.now at }
    ensures { IsTrue result ↔ IsEnd bytes.now (at + 1) }
{
    if !ends_line(bytes, at) {
        return false;
    }
    has_begun(bytes, at)
}

// The first line feed from a place on, or the limit where none stands before it.
fn line_from(bytes: &[u8], at: usize, limit: usize) -> usize
    requires { (at ≤ limit) × (limit ≤ length bytes.now) }
    ensures within { (at ≤ result) × (result ≤ limit) }
    ensures before { (i : ℕ) → at ≤ i → i < result → slice_index bytes.now i ≢ 10 }
    ensures here { result < limit → slice_index bytes.now result ≡ 10 }
{
    match memchr(b'\n', &bytes[at..limit]) {
        Some(further) => at + further,
        None => limit,
    }
}

/// Cuts the head off the bytes that came on a connection (RFC 9112, section 2.2). A former call found no
/// end in the first `seen` of them, so that each byte is looked at a few times in all, however the bytes come.
pub fn cut_head(bytes: &[u8], seen: usize) -> Cut
    requires within { seen ≤ length bytes.now }
    requires none { 0 < seen → IsCut (take seen bytes.now) NotYet }
    ensures { IsCut bytes.now result }
{
    let limit = bytes.len().min(MOST_HEAD);
    let mut at = line_from(bytes, seen, limit);
    'lines: while at < limit {
        if ends_head(bytes, at) {
            return Cut::Head(at + 1);
        }
        at = line_from(bytes, at + 1, limit);
    }
    if bytes.len() < MOST_HEAD {
        Cut::NotYet
    } else {
        Cut::TooLong
    }
}

/// Pieces can be judged as they come: where the whole has a head of n bytes, each front of at least n
/// bytes has it too, and each shorter one none yet; where the whole has none yet, neither has a front.
pub fn cut_as_it_comes()
    ensures longer { (bytes : List ℕ) (n k : ℕ) → IsCut bytes (Head n) → n ≤ k
        → IsCut (take k bytes) (Head n) }
    ensures shorter { (bytes : List ℕ) (n k : ℕ) → IsCut bytes (Head n) → k < n
        → IsCut (take k bytes) NotYet }
    ensures none { (bytes : List ℕ) (k : ℕ) → IsCut bytes NotYet → IsCut (take k bytes) NotYet }
    ensures one { (bytes : List ℕ) (a b : TheCut) → IsCut bytes a → IsCut bytes b → a ≡ b }
{}
