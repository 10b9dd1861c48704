//! Capabilities by their names.

ghost use Rattle.std.specs.Prelude.{◌≡◌, length, codes};
ghost use Rattle.serde_json.specs.View.{view};
ghost use Rattle.json_shape.specs.Fields.{Gives};
ghost use Rattle.field_kinds.specs.Reader.{needed};
ghost use Rattle.key_fields.specs.Capabilities.{cap_name, is_named, named, set_by, are_caps, caps_of, capabilities};

use b2_base::{List, Or, Text};
use b2_types::Fault;
use field_kinds::{needed, wrong};
use rule_table::{Cap, CapSet, Placed, caps, every_cap};
use serde_json::Value;
use std::alloc::Global;

fn cap_name(cap: Cap) -> &'static str
    ensures { result.now ≡ cap_name cap }
{
    let names = caps().names();
    names[cap.place()]
}

fn is_named(names: &[Text], cap: Cap) -> bool
    ensures { result ≡ is_named names.now cap }
{
    let name = cap_name(cap);
    names.iter().any(|text| text.get() == name)
}

fn named_set(names: &[Text]) -> CapSet
    ensures { result ≡ set_by (is_named names.now) }
{
    let mut set = CapSet::none();
    for cap in every_cap() {
        if is_named(names, cap) {
            set = set.with(cap);
        }
    }
    set
}

fn count_named(names: &[Text]) -> usize
    ensures { result ≡ length (named names.now) }
{
    let mut count = 0;
    for cap in every_cap() {
        if is_named(names, cap) {
            count += 1;
        }
    }
    count
}

fn are_caps(names: &[Text]) -> bool
    ensures { result ≡ are_caps names.now }
{
    let is_one = 1 <= names.len();
    is_one & (count_named(names) == names.len())
}

fn caps_of(names: &[Text]) -> Option<CapSet>
    ensures { result ≡ caps_of names.now }
{
    if !are_caps(names) {
        return None;
    }
    Some(named_set(names))
}

/// The capabilities that a key is to have.
pub(crate) fn needed_caps(alloc: Global, body: &Value) -> Result<CapSet, Or<Fault>>
    ensures { Gives (λ c. c) result (needed (codes "capabilities") capabilities (view body.now)) }
{
    let names: List<Text> = needed(alloc, body, "capabilities")?;
    match caps_of(names.get()) {
        Some(caps) => Ok(caps),
        None => Err(Or::Fault(wrong(alloc, "capabilities")?)),
    }
}
