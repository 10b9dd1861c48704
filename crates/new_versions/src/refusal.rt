//! Why there is no new version.

ghost use Rattle.std.specs.Prelude.{◌≡◌};
ghost use Rattle.new_versions.specs.Refusals.{lock_fault, refusal_fault};

use b2_types::Fault;
use rule_table::FaultKind;

/// Why a version does not get its retention or its hold.
#[derive(Clone, Copy, Debug, PartialEq, Eq)]
pub enum LockRefusal {
    /// One of them, in a bucket without Object Lock.
    LockOff,
    /// A retention that has ended.
    BadUntil,
}

/// Why an upload is refused, or the start of a large file.
#[derive(Clone, Copy, Debug, PartialEq, Eq)]
pub enum VersionRefusal {
    Lock(LockRefusal),
    /// The content has another digest than the upload tells.
    BadDigest,
    /// No number of a version is left.
    Cap,
}

/// The refusal as a fault.
pub fn lock_fault(refusal: LockRefusal) -> Fault
    ensures { result ≡ lock_fault refusal }
{
    Fault::plain(match refusal {
        LockRefusal::LockOff => FaultKind::LockOff,
        LockRefusal::BadUntil => FaultKind::BadUntil,
    })
}

/// The refusal as a fault.
pub fn fault_of(refusal: VersionRefusal) -> Fault
    ensures { result ≡ refusal_fault refusal }
{
    match refusal {
        VersionRefusal::Lock(refusal) => lock_fault(refusal),
        VersionRefusal::BadDigest => Fault::plain(FaultKind::BadDigest),
        VersionRefusal::Cap => Fault::plain(FaultKind::Cap),
    }
}
