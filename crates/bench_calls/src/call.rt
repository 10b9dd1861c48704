//! The calls, each with what it is called on.

use crate::heads::{own_headers, port_headers, port_length};
use crate::pieces::pieces;
use crate::texts::{ONE_READ, SEVEN_READ, body, head, name, units};
use b2_base::Text;
use json_shape::{object, render};
use name_rules::{FileName, decode_name, encode_name, file_name};
use serde_json::Value;
use std::alloc::Global;

/// A call and what it is called on.
#[derive(Drop)]
pub enum Call {
    /// No call.
    Nothing,
    /// `cut_head` and `read_head` on a head.
    ReadHead(String),
    /// The port's own read of a head, into places.
    Parse(String),
    /// The ports' own read of a head, `Authorization` alone into a map.
    MapOfOne(String),
    /// The ports' own read of a head, each header into a map.
    MapOfAll(String),
    /// `cut_head` on bytes that come one by one.
    Pieces(String),
    EncodeName(FileName),
    DecodeName(Text),
    Object(String),
    Render(Value),
    /// The port's own read of an object.
    ReadValue(String),
    /// The port's own text of a value.
    WriteValue(Value),
}

/// The call of this name, on something of so many bytes.
pub fn call_of(alloc: Global, word: &str, size: usize) -> Option<Call> {
    let call = match word {
        "none" => Call::Nothing,
        "read_head_1" => Call::ReadHead(head(alloc, ONE_READ, size)?),
        "read_head_7" => Call::ReadHead(head(alloc, SEVEN_READ, size)?),
        "parse_1" => Call::Parse(head(alloc, ONE_READ, size)?),
        "parse_7" => Call::Parse(head(alloc, SEVEN_READ, size)?),
        "map_1" => Call::MapOfOne(head(alloc, ONE_READ, size)?),
        "map_7" => Call::MapOfAll(head(alloc, SEVEN_READ, size)?),
        "letters" => Call::Pieces(units(alloc, "xx", size)?),
        "lines" => Call::Pieces(units(alloc, "x\n", size)?),
        "ends" => Call::Pieces(units(alloc, "\r\n", size)?),
        "encode_name" => Call::EncodeName(name_of(alloc, size)?),
        "decode_name" => Call::DecodeName(encode_name(alloc, &name_of(alloc, size)?).ok()?),
        "object" => Call::Object(body(alloc, size)?),
        "render" => Call::Render(value_of(alloc, size)?),
        "read_value" => Call::ReadValue(body(alloc, size)?),
        "write_value" => Call::WriteValue(value_of(alloc, size)?),
        _ => return None,
    };
    Some(call)
}

fn name_of(alloc: Global, size: usize) -> Option<FileName> {
    let text = name(alloc, size)?;
    file_name(alloc, text.as_bytes()).ok()
}

fn value_of(alloc: Global, size: usize) -> Option<Value> {
    let text = body(alloc, size)?;
    object(alloc, text.as_bytes()).ok()
}

fn keys(value: &Value) -> usize {
    match value.as_object() {
        Some(map) => map.len(),
        None => 0,
    }
}

impl Call {
    /// The call, once. None: it failed.
    pub fn once(&self, alloc: Global) -> Option<usize> {
        match self {
            Call::Nothing => Some(0),
            Call::ReadHead(text) => own_headers(alloc, text.as_bytes()),
            Call::Parse(text) => port_length(text.as_bytes()),
            Call::MapOfOne(text) => port_headers(alloc, text.as_bytes(), false),
            Call::MapOfAll(text) => port_headers(alloc, text.as_bytes(), true),
            Call::Pieces(text) => Some(pieces(text.as_bytes())),
            Call::EncodeName(name) => Some(encode_name(alloc, name).ok()?.get().len()),
            Call::DecodeName(text) => Some(
                decode_name(alloc, text.get().as_bytes()).ok()?.get().len(),
            ),
            Call::Object(text) => Some(keys(&object(alloc, text.as_bytes()).ok()?)),
            Call::Render(value) => Some(render(alloc, value).ok()?.get().len()),
            Call::ReadValue(text) => Some(keys(&Value::from_slice(alloc, text.as_bytes()).ok()?)),
            Call::WriteValue(value) => Some(value.to_string(alloc).ok()?.len()),
        }
    }
}
