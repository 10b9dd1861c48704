//! Information in a field.

ghost use Rattle.std.specs.Prelude.{◌≡◌, [], ◌∷◌, ◌++◌, MatchOption, IfOk, OnOk, option_map};
ghost use Rattle.serde_json.specs.View.{view, members_view};
ghost use Rattle.json_shape.specs.Fields.{field, Gives};
ghost use Rattle.name_rules.specs.InfoPairs.{AreInfo, IsArranged};
ghost use Rattle.field_kinds.specs.Info.{texts_of, pairs_of, IsInfo};
ghost use Rattle.field_kinds.specs.Reader.{optional};

use crate::reader::wrong;
use b2_base::{Memory, Or, Text};
use b2_types::Fault;
use name_rules::{InfoPairs, info_pairs};
use serde_json::{Map, Value};
use std::alloc::Global;

fn push_pair(
    alloc: Global,
    pairs: &mut Vec<(Text, Text)>,
    key: &str,
    text: &str,
) -> Result<(), Memory>
    ensures { OnOk result (pairs.new.items ≡ pairs.old.items ++ (key.now, text.now) ∷ []) }
{
    let key = Text::copy(alloc, key)?;
    let text = Text::copy(alloc, text)?;
    pairs.push((key, text))?;
    Ok(())
}

// The pairs of an object of texts.
fn texts_of(alloc: Global, map: &Map<String, Value>) -> Result<Option<Vec<(Text, Text)>>, Memory>
    ensures { IfOk result (λ o. option_map (λ v. v.items) o
        ≡ texts_of (members_view map.now.entries)) }
{
    let mut pairs = Vec::new(alloc);
    for (key, value) in map.iter() {
        let Some(text) = value.as_str() else {
            return Ok(None);
        };
        push_pair(alloc, &mut pairs, key, text)?;
    }
    Ok(Some(pairs))
}

fn pairs_of(alloc: Global, value: &Value) -> Result<Option<Vec<(Text, Text)>>, Memory>
    ensures { IfOk result (λ o. option_map (λ v. v.items) o ≡ pairs_of (view value.now)) }
{
    match value {
        Value::Object(map) => {
            let pairs = texts_of(alloc, map)?;
            Ok(pairs)
        }
        _ => Ok(None),
    }
}

// The pairs as information, where they keep the rules.
fn kept(alloc: Global, pairs: &[(Text, Text)]) -> Result<Option<InfoPairs>, Memory>
    ensures { IfOk result (λ o. MatchOption o (AreInfo pairs.now → ⊥)
        (λ info. AreInfo pairs.now × IsArranged pairs.now info)) }
{
    match info_pairs(alloc, pairs) {
        Ok(info) => Ok(Some(info)),
        Err(Or::Memory) => Err(Memory),
        Err(Or::Fault(_)) => Ok(None),
    }
}

// What the value is as information.
fn info_of(alloc: Global, value: &Value) -> Result<Option<InfoPairs>, Memory>
    ensures { IfOk result (λ info. IsInfo (view value.now) info) }
{
    let Some(pairs) = pairs_of(alloc, value)? else {
        return Ok(None);
    };
    let info = kept(alloc, &pairs)?;
    Ok(info)
}

/// The field at the key as information. Its place among the fields is judged later.
pub fn info_at(alloc: Global, body: &Value, key: &str) -> Result<Option<InfoPairs>, Memory>
    ensures { IfOk result (λ info. IsInfo (field key.now (view body.now)) info) }
{
    match body.get(key) {
        Some(value) => {
            let info = info_of(alloc, value)?;
            Ok(info)
        }
        None => Ok(None),
    }
}

/// The field at the key, which is this information.
pub fn optional_info(
    alloc: Global,
    body: &Value,
    key: &str,
    info: Option<InfoPairs>,
) -> Result<Option<InfoPairs>, Or<Fault>>
    ensures { Gives (λ x. x) result (optional key.now (λ _. info) (view body.now)) }
{
    match body.get(key) {
        None | Some(Value::Null) => return Ok(None),
        Some(_) => {}
    }
    match info {
        Some(info) => Ok(Some(info)),
        None => Err(Or::Fault(wrong(alloc, key)?)),
    }
}
