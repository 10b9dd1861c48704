//! Why a run ends before its events do.

ghost use Rattle.std.specs.Prelude.{◌≡◌};

use b2_base::Memory;

/// Why a run ends before its events do.
#[derive(Clone, Copy, Debug, PartialEq, Eq)]
pub enum End {
    /// There was not enough memory.
    Memory,
    /// A read or a write of the disk failed.
    DiskFault,
    /// No room is left for a content.
    AreaEnd,
}

impl From<Memory> for End {
    ghost use Rattle.request_acts.specs.declared.ends.End.TheVariants as end;

    ghost from_gives = { λ _ e. e ≡ end.Memory };

    fn from(_want: Memory) -> Self {
        End::Memory
    }
}
