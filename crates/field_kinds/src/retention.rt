//! Retentions.

ghost use Rattle.std.specs.Prelude.{◌≡◌, codes, IfOk};
ghost use Rattle.serde_json.specs.View.{view};
ghost use Rattle.json_shape.specs.Fields.{Gives, field};
ghost use Rattle.field_kinds.specs.Kinds.{mode_of, mode_or_none, moment, until, retention};
ghost use Rattle.field_kinds.specs.Kept.{kept};

use crate::reader::{FromJson, optional};
use b2_base::{Memory, Moment, Or};
use b2_types::{Fault, Mode, Retention};
use serde_json::Value;
use std::alloc::Global;

fn mode_of(name: &[u8]) -> Option<Mode>
    ensures { result ≡ mode_of name.now }
{
    if name == b"governance".as_slice() {
        return Some(Mode::Governance);
    }
    if name == b"compliance".as_slice() {
        return Some(Mode::Compliance);
    }
    None
}

// None where there is no mode of this name, and no mode where it is null or `none`.
pub(crate) fn mode_at(body: &Value) -> Option<Option<Mode>>
    ensures { result ≡ mode_or_none (field (codes "mode") (view body.now)) }
{
    let found = match body.get("mode") {
        None | Some(Value::Null) => return Some(None),
        Some(found) => found,
    };
    let text = found.as_str()?;
    if text.as_bytes() == b"none".as_slice() {
        return Some(None);
    }
    let mode = mode_of(text.as_bytes())?;
    Some(Some(mode))
}

fn moment_of(value: &Value) -> Option<Moment>
    ensures { result ≡ moment (view value.now) }
{
    let number = value.as_u64()?;
    Moment::new(number)
}

fn until_at(body: &Value) -> Option<Moment>
    ensures { result ≡ moment (field (codes "retainUntilTimestamp") (view body.now)) }
{
    let found = body.get("retainUntilTimestamp")?;
    moment_of(found)
}

impl FromJson for Option<Retention> {
    ghost kind = { retention };

    fn from_json(_alloc: Global, value: &Value) -> Result<Option<Option<Retention>>, Memory> {
        if !value.is_object() {
            return Ok(None);
        }
        let Some(mode) = mode_at(value) else {
            return Ok(None);
        };
        let Some(mode) = mode else {
            return Ok(Some(None));
        };
        match until_at(value) {
            Some(until) => Ok(Some(Some(Retention { mode, until }))),
            None => Ok(None),
        }
    }
}

/// The retention at the key, where it is there; one that is not there is none.
#[tactic(auto, unfolding(crate::specs::Kept::kept))]
pub fn optional_retention(
    alloc: Global,
    body: &Value,
    key: &str,
) -> Result<Option<Retention>, Or<Fault>>
    ensures { Gives (λ x. x) result (kept key.now (view body.now)) }
{
    let found: Option<Option<Retention>> = optional(alloc, body, key)?;
    match found {
        Some(retention) => Ok(retention),
        None => Ok(None),
    }
}
