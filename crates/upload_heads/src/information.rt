//! Headers of information.

ghost use Rattle.std.specs.Prelude.{◌≡◌, ◌≤◌, ◌++◌, length, drop, map, IfOk, OnOk, Some};
ghost use Rattle.upload_heads.specs.Information.{info_names, info_text, earlier, unless_text, first_amiss, pair_by, pairs_of, AreKeptAs, IsInfoOf};

use crate::table::{alone, bad_header};
use b2_base::{Memory, Or, Text};
use b2_types::Fault;
use http_header::{HeaderMap, HeaderName, HeaderValue};
use name_rules::{InfoPairs, info_pairs, is_prefix};
use std::alloc::Global;
use std::cmp::Ordering;

const INFO_FRONT: &str = "x-bz-info-";

fn info_names(alloc: Global, headers: &HeaderMap<HeaderValue>) -> Result<Vec<&HeaderName>, Memory>
    ensures { IfOk result (λ v. map (λ name. name.now) v.items ≡ info_names headers.now) }
{
    let mut names = Vec::new(alloc);
    for name in headers.keys() {
        if is_prefix(INFO_FRONT.as_bytes(), name.as_bytes()) {
            names.push(name)?;
        }
    }
    Ok(names)
}

fn info_text(
    alloc: Global,
    headers: &HeaderMap<HeaderValue>,
    name: &HeaderName,
) -> Result<Option<Text>, Memory>
    ensures { IfOk result (λ t. t ≡ info_text headers.now name.now) }
{
    let all = headers.get_all(name);
    let text = alone(alloc, &all)?;
    Ok(text)
}

// The first of the two names by their bytes.
fn earlier(alloc: Global, name: &str, first: Option<Text>) -> Result<Option<Text>, Memory>
    ensures { IfOk result (λ o. o ≡ earlier name.now first) }
{
    if let Some(other) = first {
        if name.as_bytes().cmp(other.get().as_bytes()) == Ordering::Greater {
            return Ok(Some(other));
        }
    }
    let name = Text::copy(alloc, name)?;
    Ok(Some(name))
}

// The name without its first bytes.
fn rest_of(alloc: Global, name: &HeaderName, count: usize) -> Result<Text, Memory>
    requires { count ≤ length name.now }
    ensures { IfOk result (λ key. key ≡ drop count name.now) }
{
    let rest = &name.as_bytes()[count..];
    let Ok(rest) = str::from_utf8(rest) else {
        unreachable!();
    };
    let rest = Text::copy(alloc, rest)?;
    Ok(rest)
}

// The name without the front that these headers have.
fn key_of(alloc: Global, name: &HeaderName) -> Result<Text, Memory>
    ensures { IfOk result (λ key. key ≡ drop 10 name.now) }
{
    if name.as_bytes().len() < INFO_FRONT.len() {
        let empty = Text::copy(alloc, "")?;
        return Ok(empty);
    }
    let key = rest_of(alloc, name, INFO_FRONT.len())?;
    Ok(key)
}

fn push_pair(
    alloc: Global,
    pairs: &mut Vec<(Text, Text)>,
    name: &HeaderName,
    text: Text,
) -> Result<(), Memory>
    ensures { OnOk result (pairs.new.items ≡ pairs.old.items ++ pair_by name.now (Some text)) }
{
    let key = key_of(alloc, name)?;
    pairs.push((key, text))?;
    Ok(())
}

// The pairs of the headers so far, and the first by its name that has none.
#[derive(Drop)]
struct Found {
    pairs: Vec<(Text, Text)>,
    amiss: Option<Text>,
}

impl Found {
    // One header more.
    fn take(
        self,
        alloc: Global,
        headers: &HeaderMap<HeaderValue>,
        name: &HeaderName,
    ) -> Result<Found, Memory>
        ensures pairs { IfOk result (λ found. found.pairs.items
            ≡ self.pairs.items ++ pair_by name.now (info_text headers.now name.now)) }
        ensures amiss { IfOk result (λ found. found.amiss
            ≡ unless_text (info_text headers.now name.now) name.now self.amiss) }
    {
        let mut pairs = self.pairs;
        match info_text(alloc, headers, name)? {
            Some(text) => {
                push_pair(alloc, &mut pairs, name, text)?;
                Ok(Found {
                    pairs,
                    amiss: self.amiss,
                })
            }
            None => {
                let amiss = earlier(alloc, name.as_str(), self.amiss)?;
                Ok(Found { pairs, amiss })
            }
        }
    }
}

fn found_in(
    alloc: Global,
    headers: &HeaderMap<HeaderValue>,
    names: &[&HeaderName],
) -> Result<Found, Memory>
    ensures pairs { IfOk result (λ found. found.pairs.items
        ≡ pairs_of headers.now (map (λ name. name.now) names.now)) }
    ensures amiss { IfOk result (λ found. found.amiss
        ≡ first_amiss headers.now (map (λ name. name.now) names.now)) }
{
    let mut found = Found {
        pairs: Vec::new(alloc),
        amiss: None,
    };
    for name in names {
        found = found.take(alloc, headers, *name)?;
    }
    Ok(found)
}

// The pairs as they are kept, or the fault for all of them.
fn kept(alloc: Global, pairs: &[(Text, Text)]) -> Result<Result<InfoPairs, Fault>, Memory>
    ensures { IfOk result (λ info. AreKeptAs pairs.now info) }
{
    match info_pairs(alloc, pairs) {
        Ok(info) => Ok(Ok(info)),
        Err(Or::Memory) => Err(Memory),
        Err(Or::Fault(_)) => {
            let fault = bad_header(alloc, INFO_FRONT)?;
            Ok(Err(fault))
        }
    }
}

/// What the headers give a file as its information.
pub(crate) fn info_of(
    alloc: Global,
    headers: &HeaderMap<HeaderValue>,
) -> Result<Result<InfoPairs, Fault>, Memory>
    ensures { IfOk result (λ info. IsInfoOf headers.now info) }
{
    let names = info_names(alloc, headers)?;
    let found = found_in(alloc, headers, &names)?;
    if let Some(name) = &found.amiss {
        let fault = bad_header(alloc, name.get())?;
        return Ok(Err(fault));
    }
    let info = kept(alloc, &found.pairs)?;
    Ok(info)
}
