//! Bytes that own what they hold.

ghost use Rattle.std.specs.Prelude.{◌≡◌, IfOk};

use crate::failure::Memory;
use crate::owned::Owned;
use std::alloc::Global;

/// Bytes, which clauses see as their list.
pub type Blob = Owned<Vec<u8>>;

impl Owned<Vec<u8>> {
    /// A copy of the bytes.
    pub fn copy(alloc: Global, bytes: &[u8]) -> Result<Blob, Memory>
        ensures { IfOk result (λ b. b ≡ bytes.now) }
    {
        let bytes = bytes.to_vec(alloc)?;
        Ok(Owned { held: bytes })
    }

    /// The same bytes, taken over without a copy.
    pub fn of(bytes: Vec<u8>) -> Blob
        ensures { result ≡ bytes.items }
    {
        Owned { held: bytes }
    }

    /// The bytes that it holds, handed over without a copy.
    pub fn into_vec(self) -> Vec<u8>
        ensures { result.items ≡ self }
    {
        let Owned { held } = self;
        held
    }

    /// The bytes that it holds.
    pub fn get(&self) -> &[u8]
        ensures { result.now ≡ self.now }
    {
        &self.held
    }
}
