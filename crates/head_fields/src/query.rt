//! Parameters of a query.

ghost use Rattle.std.specs.Prelude.{◌≡◌, IfOk};
ghost use Rattle.head_fields.specs.Query.{first_param};

use b2_base::{Memory, Text};
use form_urlencoded::{decode, raw_pairs};
use std::alloc::Global;

/// The value of the first parameter of this name.
pub fn first_param(alloc: Global, query: &[u8], name: &str) -> Result<Option<Text>, Memory>
    ensures { IfOk result (λ o. o ≡ first_param name.now query.now) }
{
    for (key, value) in raw_pairs(query) {
        let key = decode(alloc, key)?;
        if &*key == name {
            let text = decode(alloc, value)?;
            let text = Text::copy(alloc, &text)?;
            return Ok(Some(text));
        }
    }
    Ok(None)
}
