//! The kinds of faults, in the order of their table.

ghost use Rattle.std.specs.Prelude.{◌≡◌};
ghost use Rattle.rule_table.specs.FaultKind.{fault_names};

use crate::placed::Placed;
use crate::table::Table;

/// Why a request is refused. `P1` to `P14` are the names of the rules of the policy.
#[derive(Clone, Copy, Debug, PartialEq, Eq)]
pub enum FaultKind {
    /// Head is not HTTP.
    BadHead,
    /// Head is too long.
    LongHead,
    /// Bad content length.
    BadLength,
    /// No such call.
    NoCall,
    /// Method not allowed.
    BadMethod,
    /// Body is not a JSON object.
    NotJson,
    /// Missing field; a fault carries its key.
    Missing,
    /// Bad field; a fault carries its key.
    Wrong,
    /// Bad header; a fault carries its name.
    BadHeader,
    /// Not offered; a fault carries its key.
    Unsupported,
    /// P1: no token.
    P1,
    /// P2: unknown token or key.
    P2,
    /// P3: token of another kind or target.
    P3,
    /// P4: key was deleted.
    P4,
    /// P5: token has ended.
    P5,
    /// P6: key has ended.
    P6,
    /// P7: capability lacking.
    P7,
    /// P8: other account.
    P8,
    /// P9: other bucket.
    P9,
    /// P10: name outside the prefix.
    P10,
    /// P11: legal hold.
    P11,
    /// P12: compliance.
    P12,
    /// P13: governance, bypass not asked.
    P13,
    /// P14: governance, bypass not held.
    P14,
    /// No such bucket.
    NoBucket,
    /// No such file.
    NoFile,
    /// No such key.
    NoKey,
    /// Bucket name is taken.
    Duplicate,
    /// Too many buckets.
    TooManyBuckets,
    /// Revision differs; a fault carries its revision kept.
    Conflict,
    /// Bucket is not empty.
    NotEmpty,
    /// File is hidden.
    Hidden,
    /// Not an unfinished large file.
    NotLarge,
    /// No parts.
    NoParts,
    /// Missing part; a fault carries its k.
    Gap,
    /// Parts kept; a fault carries its n.
    Count,
    /// Digest differs at part; a fault carries its k.
    Sha,
    /// Part is too small; a fault carries its k.
    Small,
    /// Content digest differs.
    BadDigest,
    /// File lock is not enabled.
    LockOff,
    /// File lock stays enabled.
    LockStays,
    /// Retention must end later.
    BadUntil,
    /// Capability not held by the maker.
    KeyCaps,
    /// Capability not given to a limited key.
    KeyLimit,
    /// The master key stays.
    Master,
    /// Range is not satisfiable.
    Range,
    /// Upload URL is busy.
    Busy,
    /// No number is left.
    Cap,
    /// Key has several buckets.
    ManyBuckets,
    /// Copy is too long.
    LongCopy,
}

impl Placed for FaultKind {
    ghost use Rattle.std.specs.Prelude.{slice_get};
    ghost use Rattle.rule_table.specs.FaultKind.{fault_order, fault_place, fault_there, fault_here};

    ghost place_of = { fault_place };

    ghost at_place = { λ i. slice_get fault_order i };

    ghost there = { fault_there };

    ghost here = { fault_here };

    fn place(&self) -> usize {
        *self as usize
    }

    fn at(place: usize) -> Option<FaultKind> {
        [
            FaultKind::BadHead,
            FaultKind::LongHead,
            FaultKind::BadLength,
            FaultKind::NoCall,
            FaultKind::BadMethod,
            FaultKind::NotJson,
            FaultKind::Missing,
            FaultKind::Wrong,
            FaultKind::BadHeader,
            FaultKind::Unsupported,
            FaultKind::P1,
            FaultKind::P2,
            FaultKind::P3,
            FaultKind::P4,
            FaultKind::P5,
            FaultKind::P6,
            FaultKind::P7,
            FaultKind::P8,
            FaultKind::P9,
            FaultKind::P10,
            FaultKind::P11,
            FaultKind::P12,
            FaultKind::P13,
            FaultKind::P14,
            FaultKind::NoBucket,
            FaultKind::NoFile,
            FaultKind::NoKey,
            FaultKind::Duplicate,
            FaultKind::TooManyBuckets,
            FaultKind::Conflict,
            FaultKind::NotEmpty,
            FaultKind::Hidden,
            FaultKind::NotLarge,
            FaultKind::NoParts,
            FaultKind::Gap,
            FaultKind::Count,
            FaultKind::Sha,
            FaultKind::Small,
            FaultKind::BadDigest,
            FaultKind::LockOff,
            FaultKind::LockStays,
            FaultKind::BadUntil,
            FaultKind::KeyCaps,
            FaultKind::KeyLimit,
            FaultKind::Master,
            FaultKind::Range,
            FaultKind::Busy,
            FaultKind::Cap,
            FaultKind::ManyBuckets,
            FaultKind::LongCopy,
        ]
        .get(place)
        .copied()
    }
}

/// The kinds of faults and their names.
pub fn faults() -> Table<FaultKind, 50>
    ensures { result ≡ fault_names }
{
    Table::new(&[
        "BadHead",
        "LongHead",
        "BadLength",
        "NoCall",
        "BadMethod",
        "NotJson",
        "Missing",
        "Wrong",
        "BadHeader",
        "Unsupported",
        "P1",
        "P2",
        "P3",
        "P4",
        "P5",
        "P6",
        "P7",
        "P8",
        "P9",
        "P10",
        "P11",
        "P12",
        "P13",
        "P14",
        "NoBucket",
        "NoFile",
        "NoKey",
        "Duplicate",
        "TooManyBuckets",
        "Conflict",
        "NotEmpty",
        "Hidden",
        "NotLarge",
        "NoParts",
        "Gap",
        "Count",
        "Sha",
        "Small",
        "BadDigest",
        "LockOff",
        "LockStays",
        "BadUntil",
        "KeyCaps",
        "KeyLimit",
        "Master",
        "Range",
        "Busy",
        "Cap",
        "ManyBuckets",
        "LongCopy",
    ])
}
