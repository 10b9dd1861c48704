//! Bodies of answers are written.

use api_json::write_answer;
use b2_types::Shown;
use serde_json::Value;
use std::alloc::Global;

fn length(alloc: Global, shown: &Shown) -> Option<usize> {
    let text = write_answer(alloc, shown).ok()?;
    Some(text.get().len())
}

/// The answer's body is written so many times.
pub fn shown_times(alloc: Global, shown: &Shown, times: u64) -> Option<usize> {
    let mut sum = 0usize;
    for _ in 0..times {
        sum = sum.wrapping_add(length(alloc, shown)?);
    }
    Some(sum)
}

fn port_length(alloc: Global, value: &Value) -> Option<usize> {
    let text = value.to_string(alloc).ok()?;
    Some(text.len())
}

fn value_times(alloc: Global, value: &Value, times: u64) -> Option<usize> {
    let mut sum = 0usize;
    for _ in 0..times {
        sum = sum.wrapping_add(port_length(alloc, value)?);
    }
    Some(sum)
}

/// The port's own write of the same body, so many times.
pub fn port_times(alloc: Global, shown: &Shown, times: u64) -> Option<usize> {
    let text = write_answer(alloc, shown).ok()?;
    let value = Value::from_slice(alloc, text.get().as_bytes()).ok()?;
    value_times(alloc, &value, times)
}

/// The answer's body.
pub fn shown_text(alloc: Global, shown: &Shown) -> Option<String> {
    let text = write_answer(alloc, shown).ok()?;
    String::from_str(alloc, text.get()).ok()
}
