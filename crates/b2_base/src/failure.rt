//! Want of memory, alone or beside the faults of a call.

ghost use Rattle.std.specs.Prelude.{◌≡◌};

use std::alloc::{AllocError, AllocFailed};

/// There was not enough memory. It may come from each call that allocates, and changes nothing of
/// what the call was lent.
#[derive(Clone, Copy, Debug, PartialEq, Eq)]
pub struct Memory;

impl From<AllocError> for Memory {
    fn from(_error: AllocError) -> Self {
        Memory
    }
}

impl<T: Drop> From<AllocFailed<T>> for Memory {
    fn from(_error: AllocFailed<T>) -> Self {
        Memory
    }
}

/// Want of memory, or a fault that the call has a name for.
#[derive(Debug, PartialEq, Eq, Drop)]
pub enum Or<F> {
    Memory,
    Fault(F),
}

impl<F> From<Memory> for Or<F> {
    ghost use Rattle.b2_base.specs.declared.failure.Or.TheVariants as or;

    ghost from_gives = { λ _ e. e ≡ or.Memory };

    fn from(_error: Memory) -> Self {
        Or::Memory
    }
}

impl<F> From<AllocError> for Or<F> {
    ghost use Rattle.b2_base.specs.declared.failure.Or.TheVariants as or;

    ghost from_gives = { λ _ e. e ≡ or.Memory };

    fn from(_error: AllocError) -> Self {
        Or::Memory
    }
}

impl<F, T: Drop> From<AllocFailed<T>> for Or<F> {
    ghost use Rattle.b2_base.specs.declared.failure.Or.TheVariants as or;

    ghost from_gives = { λ _ e. e ≡ or.Memory };

    fn from(_error: AllocFailed<T>) -> Self {
        Or::Memory
    }
}
