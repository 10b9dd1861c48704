//! Refusals of calls on large files.

ghost use Rattle.std.specs.Prelude.{◌≡◌};
ghost use Rattle.large_files.specs.Refusals.{finish_fault, large_fault, part_fault};

use b2_types::Fault;
use rule_table::FaultKind;

/// The version is no large file under way.
#[derive(Clone, Copy, Debug, PartialEq, Eq)]
pub struct NotLarge;

/// Why a part is refused.
#[derive(Clone, Copy, Debug, PartialEq, Eq)]
pub enum PartRefusal {
    /// The version is no large file under way.
    NotLarge,
    /// The content has another digest than the upload tells.
    BadDigest,
}

/// Why a large file is not finished.
#[derive(Clone, Copy, Debug, PartialEq, Eq)]
pub enum FinishFault {
    /// The version is no large file under way.
    NotLarge,
    NoParts,
    /// The least number that is missing below a part's.
    Gap(u64),
    /// There are so many parts, and another number of digests.
    Count(u64),
    /// The number of the first part with another digest.
    Sha(u32),
    /// The number of the first part, but the last, with too few bytes.
    Small(u32),
}

/// The refusal as a fault.
pub fn not_large_fault(refusal: NotLarge) -> Fault
    ensures { result ≡ large_fault refusal }
{
    let NotLarge = refusal;
    Fault::plain(FaultKind::NotLarge)
}

/// The refusal as a fault.
pub fn fault_of_part(refusal: PartRefusal) -> Fault
    ensures { result ≡ part_fault refusal }
{
    Fault::plain(match refusal {
        PartRefusal::NotLarge => FaultKind::NotLarge,
        PartRefusal::BadDigest => FaultKind::BadDigest,
    })
}

/// The refusal as a fault.
pub fn fault_of_finish(refusal: FinishFault) -> Fault
    ensures { result ≡ finish_fault refusal }
{
    match refusal {
        FinishFault::NotLarge => Fault::plain(FaultKind::NotLarge),
        FinishFault::NoParts => Fault::plain(FaultKind::NoParts),
        FinishFault::Gap(number) => Fault::with_number(FaultKind::Gap, number),
        FinishFault::Count(number) => Fault::with_number(FaultKind::Count, number),
        FinishFault::Sha(number) => Fault::with_number(FaultKind::Sha, u64::from(number)),
        FinishFault::Small(number) => Fault::with_number(FaultKind::Small, u64::from(number)),
    }
}
