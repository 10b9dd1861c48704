//! Refusals of copies.

ghost use Rattle.std.specs.Prelude.{◌≡◌};
ghost use Rattle.copy_calls.specs.Refusals.{copy_fault};

use b2_types::Fault;
use new_versions::{LockRefusal, lock_fault};
use rule_table::FaultKind;

/// Why nothing is copied.
#[derive(Clone, Copy, Debug, PartialEq, Eq)]
pub enum CopyRefusal {
    /// The source is no upload.
    NoFile,
    /// What is to get the part is no large file under way.
    NotLarge,
    /// The range has no byte of the source.
    Range,
    /// More bytes than an upload may have.
    LongCopy,
    Lock(LockRefusal),
    /// No number of a version is left.
    Cap,
}

/// The refusal as a fault.
pub fn fault_of(refusal: CopyRefusal) -> Fault
    ensures { result ≡ copy_fault refusal }
{
    let kind = match refusal {
        CopyRefusal::Lock(refusal) => return lock_fault(refusal),
        CopyRefusal::NoFile => FaultKind::NoFile,
        CopyRefusal::NotLarge => FaultKind::NotLarge,
        CopyRefusal::Range => FaultKind::Range,
        CopyRefusal::LongCopy => FaultKind::LongCopy,
        CopyRefusal::Cap => FaultKind::Cap,
    };
    Fault::plain(kind)
}
