//! What has one spelling.

ghost use Rattle.std.specs.Prelude.{◌≡◌, ◌≢◌, ◌≤◌, ℕ, List, ◌++◌, length, drop, IfOk};
ghost use Rattle.b2_base.specs.Failure.{IfFault};
ghost use Rattle.b2_base.specs.declared.spelled.TheConstants.{LONGEST_SPELLING};

use crate::failure::Or;
use std::alloc::Global;

/// The bytes are no spelling of a record.
#[derive(Clone, Copy, Debug, PartialEq, Eq)]
pub struct BadRecord;

/// The most bytes of a spelling.
pub const LONGEST_SPELLING: usize = 65_536;

/// A value that has one spelling, of 1 to 65,536 bytes. No spelling begins that of another value, so of
/// records that are kept one after the other each value is known.
pub trait Spelled: Sized {
    /// The spelling of the value.
    ghost spelling: { Self → List ℕ };

    /// The value obeys the limits of its format.
    ghost fits: { Self → Type 0 };

    /// Writes the spelling to the front of `out`, and answers its length. It takes no memory.
    fn write(&self, out: &mut [u8]) -> usize
        requires limits { fits self.now }
        requires room { LONGEST_SPELLING ≤ length out.old }
        ensures len { result ≡ length (spelling self.now) }
        ensures written { out.new
            ≡ spelling self.now ++ drop (length (spelling self.now)) out.old };

    /// The value whose spelling the bytes are, all of them.
    fn read(alloc: Global, bytes: &[u8]) -> Result<Self, Or<BadRecord>>
        ensures found { IfOk result (λ value. fits value × (bytes.now ≡ spelling value)) }
        ensures bad { IfFault result (λ _. (value : Self) → fits value
            → bytes.now ≢ spelling value) };

    /// A spelling is not empty, and has at most 65,536 bytes.
    ghost some: { (value : Self) → fits value → 1 ≤ length (spelling value) };

    ghost few: { (value : Self) → fits value → length (spelling value) ≤ LONGEST_SPELLING };

    /// What begins with the spellings of two values begins with one value's: they are equal. So no
    /// spelling begins another, and none is that of two values.
    ghost whole: { (a b : Self) (x y : List ℕ)
        → fits a → fits b → spelling a ++ x ≡ spelling b ++ y → a ≡ b };
}
