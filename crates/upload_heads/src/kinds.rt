//! Kinds of headers.

ghost use Rattle.std.specs.Prelude.{◌≡◌, true, IfOk};
ghost use Rattle.std.specs.List.{list_all};
ghost use Rattle.field_kinds.specs.Kinds.{if_passes, is_file_name, is_visible, has_length, mode_of};
ghost use Rattle.upload_heads.specs.Kinds.{escaped_text, file_name, content_type, hold, digest_rule, is_padded, number_within, moment, part_number};

use crate::table::FromHeader;
use crate::text::escaped_text;
use b2_base::{MOST_DIGITS, Memory, Moment, Or, Text, read_digits};
use b2_types::{DigestRule, Mode};
use hex::FromHex;
use name_rules::{FileName, file_name};
use std::alloc::Global;
use std::marker::Model;

fn file_named(alloc: Global, text: &str) -> Result<Option<FileName>, Memory>
    ensures { IfOk result (λ o. o ≡ if_passes is_file_name text.now) }
{
    match file_name(alloc, text.as_bytes()) {
        Ok(name) => Ok(Some(name)),
        Err(Or::Memory) => Err(Memory),
        Err(Or::Fault(_)) => Ok(None),
    }
}

impl FromHeader for FileName {
    ghost kind = { file_name };

    fn from_header(alloc: Global, bytes: &[u8]) -> Result<Option<FileName>, Memory> {
        let Some(text) = escaped_text(alloc, bytes)? else {
            return Ok(None);
        };
        let name = file_named(alloc, text.get())?;
        Ok(name)
    }
}

/// The type of a content: 1 to 255 bytes from 32 to 126.
#[derive(Drop)]
pub(crate) struct ContentType {
    text: Text,
}

impl Model for ContentType {
    ghost use Rattle.std.specs.Prelude.{ℕ, List};
    ghost use Rattle.std.specs.Coded.{coded_list, coded_ℕ};

    ghost Value = { List ℕ };

    ghost coded = { coded_list coded_ℕ };

    ghost view = { λ t. t.text };
}

impl ContentType {
    /// The type as a text.
    pub(crate) fn into_text(self) -> Text
        ensures { result ≡ self }
    {
        self.text
    }
}

fn is_visible(byte: u8) -> bool
    ensures { result ≡ is_visible byte }
{
    (32 <= byte) & (byte <= 126)
}

fn are_visible(bytes: &[u8]) -> bool
    ensures { result ≡ list_all is_visible bytes.now }
{
    bytes.iter().all(|byte| is_visible(*byte))
}

fn has_length(low: usize, high: usize, bytes: &[u8]) -> bool
    ensures { result ≡ has_length low high bytes.now }
{
    (low <= bytes.len()) & (bytes.len() <= high)
}

// The text that the bytes are, which are of ASCII.
#[tactic(auto, using(crate::proofs::Texts::visible_text))]
fn visible_text(alloc: Global, bytes: &[u8]) -> Result<Text, Memory>
    requires { list_all is_visible bytes.now ≡ true }
    ensures { IfOk result (λ t. t ≡ bytes.now) }
{
    let Ok(text) = str::from_utf8(bytes) else {
        unreachable!();
    };
    let text = Text::copy(alloc, text)?;
    Ok(text)
}

impl FromHeader for ContentType {
    ghost kind = { content_type };

    fn from_header(alloc: Global, bytes: &[u8]) -> Result<Option<ContentType>, Memory> {
        if !(has_length(1, 255, bytes) & are_visible(bytes)) {
            return Ok(None);
        }
        let text = visible_text(alloc, bytes)?;
        Ok(Some(ContentType { text }))
    }
}

impl FromHeader for DigestRule {
    ghost kind = { digest_rule };

    fn from_header(_alloc: Global, bytes: &[u8]) -> Result<Option<DigestRule>, Memory> {
        if bytes == b"hex_digits_at_end".as_slice() {
            return Ok(Some(DigestRule::AtEnd));
        }
        if bytes == b"do_not_verify".as_slice() {
            return Ok(Some(DigestRule::NotVerified));
        }
        match <[u8; 20] as FromHex>::from_hex(bytes) {
            Ok(digest) => Ok(Some(DigestRule::Given(digest))),
            Err(_) => Ok(None),
        }
    }
}

// A legal hold.
impl FromHeader for bool {
    ghost kind = { hold };

    fn from_header(_alloc: Global, bytes: &[u8]) -> Result<Option<bool>, Memory> {
        if bytes == b"on".as_slice() {
            return Ok(Some(true));
        }
        if bytes == b"off".as_slice() {
            return Ok(Some(false));
        }
        Ok(None)
    }
}

impl FromHeader for Mode {
    ghost kind = { mode_of };

    fn from_header(_alloc: Global, bytes: &[u8]) -> Result<Option<Mode>, Memory> {
        if bytes == b"governance".as_slice() {
            return Ok(Some(Mode::Governance));
        }
        if bytes == b"compliance".as_slice() {
            return Ok(Some(Mode::Compliance));
        }
        Ok(None)
    }
}

fn is_padded(text: &[u8]) -> bool
    ensures { result ≡ is_padded text.now }
{
    if text.len() <= 1 {
        return false;
    }
    text[0] == b'0'
}

// The number from `low` to `high` that is written so, with no leading zero.
fn number_within(text: &[u8], low: u64, high: u64) -> Option<u64>
    ensures { result ≡ number_within low high text.now }
{
    let number = read_digits(text, MOST_DIGITS)?;
    if is_padded(text) {
        return None;
    }
    let is_within = (low <= number) & (number <= high);
    if is_within { Some(number) } else { None }
}

impl FromHeader for Moment {
    ghost kind = { moment };

    fn from_header(_alloc: Global, bytes: &[u8]) -> Result<Option<Moment>, Memory> {
        let Some(number) = number_within(bytes, 0, 253_402_300_799_999) else {
            return Ok(None);
        };
        Ok(Moment::new(number))
    }
}

// The number of a part.
impl FromHeader for u32 {
    ghost kind = { part_number };

    fn from_header(_alloc: Global, bytes: &[u8]) -> Result<Option<u32>, Memory> {
        let Some(number) = number_within(bytes, 1, 10_000) else {
            return Ok(None);
        };
        Ok(Some(number as u32))
    }
}

// A text with escapes.
impl FromHeader for Text {
    ghost kind = { escaped_text };

    fn from_header(alloc: Global, bytes: &[u8]) -> Result<Option<Text>, Memory> {
        let text = escaped_text(alloc, bytes)?;
        Ok(text)
    }
}
