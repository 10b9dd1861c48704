//! Pairs of information about a file or a bucket.

ghost use Rattle.std.specs.Prelude.{◌≡◌, ◌↔◌, ◌-◌, ◌^◌, ◌<◌, ◌≤◌, min, map, IsTrue, IfOk, MatchOption, length};
ghost use Rattle.b2_base.specs.Failure.{IfFault};
ghost use Rattle.std.specs.List.Sorted.{IsPermutation};
ghost use Rattle.name_rules.specs.InfoPairs.{IsKeyByte, key_at, IsAscending, IsKey, lower, lowered, size, HasKey, IsNew, AllBefore, IsFirstNot, AreInfo, IsInfoFault, IsArranged, AreKept};

use b2_base::{List, Memory, Or, Text};
use std::alloc::Global;
use std::collections::BTreeMap;
use std::marker::Model;

/// The most pairs of one file or bucket.
pub const MOST_PAIRS: usize = 10;

/// The most bytes of a key.
pub const MOST_KEY: usize = 50;

/// The most bytes of all keys and values together.
pub const MOST_INFO: usize = 7000;

/// Why pairs are no information.
#[derive(Clone, Copy, Debug, PartialEq, Eq)]
pub enum InfoFault {
    /// More than 10 pairs.
    TooMany,
    /// The key of the pair at this place has other than 1 to 50 letters, digits and marks; it is the
    /// first such.
    Key(usize),
    /// The key of the pair at this place stands before, in either case; it is the first such.
    Repeat(usize),
    /// Keys and values have so many bytes, which are more than 7,000.
    Size(usize),
}

/// At most 10 pairs of a lower-case key and a value, in the order of the keys' bytes, which have at
/// most 7,000 bytes together.
#[derive(Debug, Drop)]
pub struct InfoPairs {
    pairs: List<(Text, Text)>,
}

impl Model for InfoPairs {
    ghost use Rattle.std.specs.Prelude as p;
    ghost use Rattle.name_rules.specs.InfoPairs.{AreKept};

    ghost Value = { p.List (p.List p.ℕ × p.List p.ℕ) };

    ghost view = { λ i. i.pairs };

    ghost invariant = { λ i. AreKept i.pairs };
}

impl InfoPairs {
    /// The pairs in the order of their keys.
    pub fn get(&self) -> &[(Text, Text)]
        ensures { (result.now ≡ self.now) × AreKept self.now }
    {
        self.pairs.get()
    }
}

fn is_key_byte(byte: u8) -> bool
    ensures { IsTrue result ↔ IsKeyByte byte }
{
    byte.is_ascii_alphanumeric() | b"-_.`~!#$%^&*'|+".contains(&byte)
}

fn is_key(key: &[u8]) -> bool
    ensures { IsTrue result ↔ IsKey key.now }
{
    if key.is_empty() | (key.len() > MOST_KEY) {
        return false;
    }
    let mut at = 0;
    'bytes: while at < key.len() {
        if !is_key_byte(key[at]) {
            return false;
        }
        at += 1;
    }
    true
}

fn key_of(pairs: &[(Text, Text)], at: usize) -> &[u8]
    requires { at < length pairs.now }
    ensures { result.now ≡ key_at pairs.now at }
{
    pairs[at].0.get().as_bytes()
}

// The place of the first key that isn't one.
fn odd_key(pairs: &[(Text, Text)]) -> Option<usize>
    ensures { MatchOption result
        (AllBefore (HasKey pairs.now) (length pairs.now))
        (IsFirstNot (HasKey pairs.now) (length pairs.now)) }
{
    let mut at = 0;
    'pairs: while at < pairs.len() {
        if !is_key(key_of(pairs, at)) {
            return Some(at);
        }
        at += 1;
    }
    None
}

fn is_same_key(pairs: &[(Text, Text)], i: usize, at: usize) -> bool
    requires first { i < length pairs.now }
    requires second { at < length pairs.now }
    ensures { IsTrue result ↔ (lower (key_at pairs.now i) ≡ lower (key_at pairs.now at)) }
{
    key_of(pairs, i).eq_ignore_ascii_case(key_of(pairs, at))
}

fn is_new(pairs: &[(Text, Text)], at: usize) -> bool
    requires { at < length pairs.now }
    ensures { IsTrue result ↔ IsNew pairs.now at }
{
    let mut i = 0;
    'pairs: while i < at {
        if is_same_key(pairs, i, at) {
            return false;
        }
        i += 1;
    }
    true
}

// The place of the first key that stands before.
fn repeated_key(pairs: &[(Text, Text)]) -> Option<usize>
    ensures { MatchOption result
        (AllBefore (IsNew pairs.now) (length pairs.now))
        (IsFirstNot (IsNew pairs.now) (length pairs.now)) }
{
    let mut at = 0;
    'pairs: while at < pairs.len() {
        if !is_new(pairs, at) {
            return Some(at);
        }
        at += 1;
    }
    None
}

// The bytes of all keys and values; the count stops where a usize ends.
fn bytes_of(pairs: &[(Text, Text)]) -> usize
    ensures { result ≡ min (size pairs.now) (2 ^ 64 - 1) }
{
    let mut bytes = 0usize;
    'pairs: for pair in pairs {
        bytes = bytes
            .saturating_add(pair.0.get().len())
            .saturating_add(pair.1.get().len());
    }
    bytes
}

fn lower_key(alloc: Global, key: &Text) -> Result<Text, Memory>
    ensures { IfOk result (λ t. t ≡ lower key.now) }
{
    let mut text = String::from_str(alloc, key.get())?;
    text.make_ascii_lowercase();
    Ok(Text::of(text))
}

// The pairs in the order of their lower-case keys, which differ.
fn ordered(alloc: Global, pairs: &[(Text, Text)]) -> Result<BTreeMap<Text, Text>, Memory>
    requires { AllBefore (IsNew pairs.now) (length pairs.now) }
    ensures { IfOk result (λ m. IsPermutation (map lowered pairs.now) m.entries) }
{
    let mut map = BTreeMap::new(alloc);
    'pairs: for pair in pairs {
        let key = lower_key(alloc, &pair.0)?;
        let value = Text::copy(alloc, pair.1.get())?;
        map.insert(key, value)?;
    }
    Ok(map)
}

fn listed(alloc: Global, map: BTreeMap<Text, Text>) -> Result<Vec<(Text, Text)>, Memory>
    ensures { IfOk result (λ v. (v.items ≡ map.entries) × IsAscending v.items) }
{
    let mut list = Vec::new(alloc);
    'pairs: for pair in map {
        list.push(pair)?;
    }
    Ok(list)
}

/// The pairs with lower-case keys, in the order of the keys' bytes. The bytes that are counted are
/// the plain bytes of keys and values.
pub fn info_pairs(alloc: Global, pairs: &[(Text, Text)]) -> Result<InfoPairs, Or<InfoFault>>
    ensures pairs { IfOk result (λ i. AreInfo pairs.now × IsArranged pairs.now i) }
    ensures fault { IfFault result (IsInfoFault pairs.now) }
{
    if pairs.len() > MOST_PAIRS {
        return Err(Or::Fault(InfoFault::TooMany));
    }
    if let Some(at) = odd_key(pairs) {
        return Err(Or::Fault(InfoFault::Key(at)));
    }
    if let Some(at) = repeated_key(pairs) {
        return Err(Or::Fault(InfoFault::Repeat(at)));
    }
    let bytes = bytes_of(pairs);
    if bytes > MOST_INFO {
        return Err(Or::Fault(InfoFault::Size(bytes)));
    }
    let map = ordered(alloc, pairs)?;
    let list = listed(alloc, map)?;
    Ok(InfoPairs {
        pairs: List::of(list),
    })
}
