//! Refusals of calls on keys.

ghost use Rattle.std.specs.Prelude.{◌≡◌};
ghost use Rattle.b2_types.specs.Fault.{plain};
ghost use Rattle.app_keys.specs.Keys.{kind_of};

use b2_types::Fault;
use rule_table::FaultKind;

/// Why a key is not made or not deleted.
#[derive(Clone, Copy, Debug, PartialEq, Eq)]
pub enum KeyRefusal {
    /// A capability that the maker lacks.
    KeyCaps,
    /// A capability that a key with buckets doesn't get.
    KeyLimit,
    /// No number of a key is left.
    Cap,
    /// The master key stays.
    Master,
}

/// The refusal as a fault.
pub fn fault_of(refusal: KeyRefusal) -> Fault
    ensures { result ≡ plain (kind_of refusal) }
{
    Fault::plain(match refusal {
        KeyRefusal::KeyCaps => FaultKind::KeyCaps,
        KeyRefusal::KeyLimit => FaultKind::KeyLimit,
        KeyRefusal::Cap => FaultKind::Cap,
        KeyRefusal::Master => FaultKind::Master,
    })
}
