//! Text that owns its bytes.

ghost use Rattle.std.specs.Prelude.{◌≡◌, string_bytes, IfOk};

use crate::failure::Memory;
use crate::owned::Owned;
use std::alloc::Global;

/// UTF-8 text, which clauses see as the list of its bytes.
pub type Text = Owned<String>;

impl Owned<String> {
    /// A copy of the text.
    pub fn copy(alloc: Global, text: &str) -> Result<Text, Memory>
        ensures { IfOk result (λ t. t ≡ text.now) }
    {
        let text = String::from_str(alloc, text)?;
        Ok(Owned { held: text })
    }

    /// The same text, taken over without a copy.
    pub fn of(text: String) -> Text
        ensures { result ≡ string_bytes text }
    {
        Owned { held: text }
    }

    /// The text that it holds.
    pub fn get(&self) -> &str
        ensures { result.now ≡ self.now }
    {
        self.held.as_str()
    }
}
