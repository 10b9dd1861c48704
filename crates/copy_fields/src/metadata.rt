//! Where the type and the information of a copy come from.

ghost use Rattle.serde_json.specs.View.{view};
ghost use Rattle.json_shape.specs.Fields.{Gives};
ghost use Rattle.copy_fields.specs.Metadata.{absent, kept, replaced, metadata};

use b2_base::Or;
use b2_types::{CopyMetadata, Fault};
use field_kinds::{TextRule, needed_text, optional_choice, optional_info, wrong};
use name_rules::InfoPairs;
use serde_json::Value;
use std::alloc::Global;

#[tactic(auto, unfolding(crate::specs::Metadata::absent))]
fn absent(alloc: Global, body: &Value, key: &str) -> Result<(), Or<Fault>>
    ensures { Gives (λ x. x) result (absent key.now (view body.now)) }
{
    match body.get(key) {
        None | Some(Value::Null) => Ok(()),
        Some(_) => Err(Or::Fault(wrong(alloc, key)?)),
    }
}

fn kept(alloc: Global, body: &Value) -> Result<CopyMetadata, Or<Fault>>
    ensures { Gives (λ m. m) result (kept (view body.now)) }
{
    absent(alloc, body, "contentType")?;
    absent(alloc, body, "fileInfo")?;
    Ok(CopyMetadata::Kept)
}

fn replaced(alloc: Global, body: &Value, info: Option<InfoPairs>) -> Result<CopyMetadata, Or<Fault>>
    ensures { Gives (λ m. m) result (replaced info (view body.now)) }
{
    let kind = needed_text(alloc, body, "contentType", TextRule::ContentType)?;
    let info = optional_info(alloc, body, "fileInfo", info)?;
    Ok(CopyMetadata::Replaced(kind, info))
}

/// The type and the information of a copy: the source's, or those that the call gives.
pub(crate) fn metadata(
    alloc: Global,
    body: &Value,
    info: Option<InfoPairs>,
) -> Result<CopyMetadata, Or<Fault>>
    ensures { Gives (λ m. m) result (metadata info (view body.now)) }
{
    let asked = optional_choice(alloc, body, "metadataDirective", "REPLACE", "COPY")?;
    if asked.unwrap_or(false) {
        let given = replaced(alloc, body, info)?;
        return Ok(given);
    }
    let same = kept(alloc, body)?;
    Ok(same)
}
