//! The form of a refusal.

ghost use Rattle.std.specs.Prelude.{◌≡◌};
ghost use Rattle.wire_forms.specs.Body.{refusal_json};

use crate::to_json::{ToJson, put_field, put_text};
use b2_base::Memory;
use b2_types::{Fault, code_of, message_of, status_of};
use serde_json::{Map, Value};
use std::alloc::Global;

impl ToJson for Fault {
    ghost form = { refusal_json };

    fn to_json(&self, alloc: Global) -> Result<Value, Memory> {
        let message = message_of(alloc, self)?;
        let mut map = Map::new(alloc);
        put_text(&mut map, alloc, "code", code_of(self.kind))?;
        put_field(&mut map, alloc, "message", &message)?;
        put_field(&mut map, alloc, "status", &u64::from(status_of(self.kind)))?;
        Ok(Value::Object(map))
    }
}
