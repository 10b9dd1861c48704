//! Names of buckets.

ghost use Rattle.std.specs.Prelude.{◌≡◌, ◌↔◌, MatchOption, IsTrue, IfOk, EachIndex, slice_index, length, ◌≤◌};
ghost use Rattle.b2_base.specs.Failure.{IfFault};
ghost use Rattle.name_rules.specs.BucketName.{IsBucketByte, IsReserved, IsBucketName, IsBucketFault};
ghost use Rattle.name_rules.specs.Bytes.{IsFirstOther};

use crate::name::{Name, NameRule};
use b2_base::{Or, Text};
use std::alloc::Global;

/// Why bytes are no name of a bucket.
#[derive(Clone, Copy, Debug, PartialEq, Eq)]
pub enum BucketFault {
    /// Fewer than 6 bytes.
    Short,
    /// More than 63 bytes.
    Long,
    /// It begins with `b2-`, in any case.
    Reserved,
    /// The byte at this place is no ASCII letter, digit or hyphen; it is the first such.
    Char(usize),
}

/// The least bytes of a bucket's name.
pub const LEAST_BUCKET_NAME: usize = 6;

/// The most bytes of a bucket's name.
pub const MOST_BUCKET_NAME: usize = 63;

/// The rule of buckets' names.
#[derive(Clone, Copy, Debug, PartialEq, Eq)]
pub struct BucketRule;

impl NameRule for BucketRule {
    ghost use Rattle.name_rules.specs.BucketName.{IsBucketName};

    ghost is_name = { IsBucketName };
}

/// A bucket's name: 6 to 63 ASCII letters, digits and hyphens, which do not begin with `b2-`.
pub type BucketName = Name<BucketRule>;

fn is_bucket_byte(byte: u8) -> bool
    ensures { IsTrue result ↔ IsBucketByte byte }
{
    byte.is_ascii_alphanumeric() | (byte == b'-')
}

fn is_reserved(bytes: &[u8]) -> bool
    requires { 3 ≤ length bytes.now }
    ensures { IsTrue result ↔ IsReserved bytes.now }
{
    bytes[..3].eq_ignore_ascii_case(b"b2-")
}

// The place of the first byte that no name has.
fn odd_byte(bytes: &[u8]) -> Option<usize>
    ensures { MatchOption result
        (EachIndex bytes.now (λ i. IsBucketByte (slice_index bytes.now i)))
        (λ at. IsFirstOther IsBucketByte bytes.now at) }
{
    let mut at = 0;
    'bytes: while at < bytes.len() {
        if !is_bucket_byte(bytes[at]) {
            return Some(at);
        }
        at += 1;
    }
    None
}

/// The name that these bytes are.
pub fn bucket_name(alloc: Global, bytes: &[u8]) -> Result<BucketName, Or<BucketFault>>
    ensures name { IfOk result (λ n. (n ≡ bytes.now) × IsBucketName bytes.now) }
    ensures fault { IfFault result (λ fault. IsBucketFault bytes.now fault) }
{
    if bytes.len() < LEAST_BUCKET_NAME {
        return Err(Or::Fault(BucketFault::Short));
    }
    if bytes.len() > MOST_BUCKET_NAME {
        return Err(Or::Fault(BucketFault::Long));
    }
    if is_reserved(bytes) {
        return Err(Or::Fault(BucketFault::Reserved));
    }
    if let Some(at) = odd_byte(bytes) {
        return Err(Or::Fault(BucketFault::Char(at)));
    }
    let text = str::from_utf8(bytes).unwrap();
    let name = Text::copy(alloc, text)?;
    Ok(BucketName::of(name))
}
