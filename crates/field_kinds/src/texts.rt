//! Texts with rules of their own, and texts of two kinds.

ghost use Rattle.std.specs.Prelude.{◌≡◌, ◌≤◌, length, take, drop, codes, bytes_eq};
ghost use Rattle.serde_json.specs.View.{view};
ghost use Rattle.json_shape.specs.Fields.{Gives};
ghost use Rattle.field_kinds.specs.Reader.{needed, optional};
ghost use Rattle.field_kinds.specs.Kinds.{text, chosen, choice, is_digit, is_account_id, is_long_id, is_bucket_byte, passes, text_by, has_length, is_visible};
ghost use Rattle.std.specs.List.{list_all};

use crate::reader::{missing, needed, optional, wrong};
use b2_base::{Or, Text};
use b2_types::Fault;
use serde_json::Value;
use std::alloc::Global;

/// The rule of a text.
#[derive(Clone, Copy, Debug, PartialEq, Eq)]
pub enum TextRule {
    /// The id of a key of some account.
    KeyId,
    /// 1 to 100 letters, digits and hyphens.
    KeyName,
    /// At most 1,024 bytes.
    KeyPrefix,
    /// 1 to 100 bytes.
    Delimiter,
    /// 1 to 255 bytes from 32 to 126.
    ContentType,
}

fn is_digit(byte: u8) -> bool
    ensures { result ≡ is_digit byte }
{
    ((48 <= byte) & (byte <= 57)) | ((97 <= byte) & (byte <= 102))
}

fn are_digits(text: &[u8]) -> bool
    ensures { result ≡ list_all is_digit text.now }
{
    text.iter().all(|byte| is_digit(*byte))
}

fn is_account_id(text: &[u8]) -> bool
    ensures { result ≡ is_account_id text.now }
{
    let is_long = text.len() == 12;
    is_long & are_digits(text)
}

fn has_front(text: &[u8]) -> bool
    requires { 3 ≤ length text.now }
    ensures { result ≡ bytes_eq (take 3 text.now) (codes "001") }
{
    &text[..3] == b"001".as_slice()
}

fn is_small(text: &[u8]) -> bool
    requires { 17 ≤ length text.now }
    ensures { result ≡ bytes_eq (take 2 (drop 15 text.now)) (codes "00") }
{
    &text[15..17] == b"00".as_slice()
}

fn is_zero(text: &[u8]) -> bool
    requires { 25 ≤ length text.now }
    ensures { result ≡ bytes_eq (take 8 (drop 17 text.now)) (codes "00000000") }
{
    &text[17..25] == b"00000000".as_slice()
}

fn is_long_id(text: &[u8]) -> bool
    ensures { result ≡ is_long_id text.now }
{
    let is_long = text.len() == 25;
    if !is_long {
        return false;
    }
    let is_hex = are_digits(text);
    let is_numbered = has_front(text) & is_small(text) & !is_zero(text);
    (is_long & is_hex) & is_numbered
}

fn is_name_byte(byte: u8) -> bool
    ensures { result ≡ is_bucket_byte byte }
{
    byte.is_ascii_alphanumeric() | (byte == 45)
}

fn are_name_bytes(text: &[u8]) -> bool
    ensures { result ≡ list_all is_bucket_byte text.now }
{
    text.iter().all(|byte| is_name_byte(*byte))
}

fn is_visible(byte: u8) -> bool
    ensures { result ≡ is_visible byte }
{
    (32 <= byte) & (byte <= 126)
}

fn are_visible(text: &[u8]) -> bool
    ensures { result ≡ list_all is_visible text.now }
{
    text.iter().all(|byte| is_visible(*byte))
}

fn has_length(low: usize, high: usize, text: &[u8]) -> bool
    ensures { result ≡ has_length low high text.now }
{
    (low <= text.len()) & (text.len() <= high)
}

fn passes(rule: TextRule, text: &[u8]) -> bool
    ensures { result ≡ passes rule text.now }
{
    match rule {
        TextRule::KeyId => is_account_id(text) | is_long_id(text),
        TextRule::KeyName => has_length(1, 100, text) & are_name_bytes(text),
        TextRule::KeyPrefix => has_length(0, 1024, text),
        TextRule::Delimiter => has_length(1, 100, text),
        TextRule::ContentType => has_length(1, 255, text) & are_visible(text),
    }
}

/// The text at the key, which keeps the rule.
pub fn needed_text(
    alloc: Global,
    body: &Value,
    key: &str,
    rule: TextRule,
) -> Result<Text, Or<Fault>>
    ensures { Gives (λ x. x) result (needed key.now (text_by rule) (view body.now)) }
{
    let found: Text = needed(alloc, body, key)?;
    if !passes(rule, found.get().as_bytes()) {
        return Err(Or::Fault(wrong(alloc, key)?));
    }
    Ok(found)
}

/// The text at the key, where it is there, which keeps the rule.
pub fn optional_text(
    alloc: Global,
    body: &Value,
    key: &str,
    rule: TextRule,
) -> Result<Option<Text>, Or<Fault>>
    ensures { Gives (λ x. x) result (optional key.now (text_by rule) (view body.now)) }
{
    let found: Option<Text> = optional(alloc, body, key)?;
    let Some(found) = found else {
        return Ok(None);
    };
    if !passes(rule, found.get().as_bytes()) {
        return Err(Or::Fault(wrong(alloc, key)?));
    }
    Ok(Some(found))
}

fn chosen(text: &[u8], on: &[u8], off: &[u8]) -> Option<bool>
    ensures { result ≡ chosen on.now off.now text.now }
{
    if text == on {
        return Some(true);
    }
    if text == off { Some(false) } else { None }
}

/// Whether the text at the key is the first of the two.
pub fn needed_choice(
    alloc: Global,
    body: &Value,
    key: &str,
    on: &str,
    off: &str,
) -> Result<bool, Or<Fault>>
    ensures { Gives (λ x. x) result (needed key.now (choice on.now off.now) (view body.now)) }
{
    let found = match body.get(key) {
        None | Some(Value::Null) => return Err(Or::Fault(missing(alloc, key)?)),
        Some(found) => found,
    };
    let Some(text) = found.as_str() else {
        return Err(Or::Fault(wrong(alloc, key)?));
    };
    match chosen(text.as_bytes(), on.as_bytes(), off.as_bytes()) {
        Some(is_on) => Ok(is_on),
        None => Err(Or::Fault(wrong(alloc, key)?)),
    }
}

/// Whether the text at the key, where it is there, is the first of the two.
pub fn optional_choice(
    alloc: Global,
    body: &Value,
    key: &str,
    on: &str,
    off: &str,
) -> Result<Option<bool>, Or<Fault>>
    ensures { Gives (λ x. x) result (optional key.now (choice on.now off.now) (view body.now)) }
{
    let found = match body.get(key) {
        None | Some(Value::Null) => return Ok(None),
        Some(found) => found,
    };
    let Some(text) = found.as_str() else {
        return Err(Or::Fault(wrong(alloc, key)?));
    };
    match chosen(text.as_bytes(), on.as_bytes(), off.as_bytes()) {
        Some(is_on) => Ok(Some(is_on)),
        None => Err(Or::Fault(wrong(alloc, key)?)),
    }
}
