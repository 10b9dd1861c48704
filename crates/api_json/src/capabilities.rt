//! Capabilities by their names.

ghost use Rattle.std.specs.Prelude.{◌≡◌};
ghost use Rattle.wire_forms.specs.Body.{cap_name, caps_json};

use crate::to_json::ToJson;
use b2_base::Memory;
use rule_table::{Cap, CapSet, Placed, caps, every_cap};
use serde_json::Value;
use std::alloc::Global;

fn cap_name(cap: Cap) -> &'static str
    ensures { result.now ≡ cap_name cap }
{
    let names = caps().names();
    names[cap.place()]
}

// A list of the names, in the order of their table.
impl ToJson for CapSet {
    ghost form = { caps_json };

    fn to_json(&self, alloc: Global) -> Result<Value, Memory> {
        let mut names = Vec::new(alloc);
        for cap in every_cap() {
            if self.has(cap) {
                let name = String::from_str(alloc, cap_name(cap))?;
                names.push(Value::String(name))?;
            }
        }
        Ok(Value::Array(names))
    }
}
