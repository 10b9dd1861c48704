//! Headers by their names.

ghost use Rattle.std.specs.Prelude.{◌≡◌, ℕ, List, Option, IfOk};
ghost use Rattle.http_header.specs.Token.{lowercase};
ghost use Rattle.json_shape.specs.Fields.{Gives};
ghost use Rattle.upload_heads.specs.Table.{bad_header, alone, is_given, needed, optional};

use b2_base::{Memory, Or, Text};
use b2_types::Fault;
use http_header::{GetAll, HeaderMap, HeaderValue};
use rule_table::FaultKind;
use std::alloc::Global;

/// A kind of headers.
pub(crate) trait FromHeader: Sized {
    /// What the bytes of a value are as such a header.
    ghost kind: { List ℕ → Option Self };

    /// What the bytes are, where they are such a header.
    fn from_header(alloc: Global, bytes: &[u8]) -> Result<Option<Self>, Memory>
        ensures { IfOk result (λ found. found ≡ kind bytes.now) };
}

pub(crate) fn bad_header(alloc: Global, name: &str) -> Result<Fault, Memory>
    ensures { IfOk result (λ f. f ≡ bad_header name.now) }
{
    let name = Text::copy(alloc, name)?;
    Ok(Fault::with_word(FaultKind::BadHeader, name))
}

// What the values are, where they are one alone and it is of the kind.
pub(crate) fn alone<T: FromHeader + Drop>(
    alloc: Global,
    all: &GetAll<'_, HeaderValue>,
) -> Result<Option<T>, Memory>
    ensures { IfOk result (λ found. found ≡ alone T.kind all.now) }
{
    let mut values = all.iter();
    let Some(value) = values.next() else {
        return Ok(None);
    };
    if values.next().is_some() {
        return Ok(None);
    }
    let found = T::from_header(alloc, value.as_bytes())?;
    Ok(found)
}

/// The header of this name, which is given in lower case.
#[tactic(auto, unfolding(crate::specs::Table::needed))]
pub(crate) fn needed<T: FromHeader + Drop>(
    alloc: Global,
    headers: &HeaderMap<HeaderValue>,
    name: &str,
) -> Result<T, Or<Fault>>
    requires lower { lowercase name.now ≡ name.now }
    ensures { Gives (λ x. x) result (needed name.now T.kind headers.now) }
{
    let all = headers.get_all(name);
    match alone(alloc, &all)? {
        Some(found) => Ok(found),
        None => Err(Or::Fault(bad_header(alloc, name)?)),
    }
}

/// Whether a header of this name, which is given in lower case, stands.
#[tactic(auto, unfolding(crate::specs::Table::is_given))]
pub(crate) fn is_given(headers: &HeaderMap<HeaderValue>, name: &str) -> bool
    requires lower { lowercase name.now ≡ name.now }
    ensures { result ≡ is_given name.now headers.now }
{
    headers.get(name).is_some()
}

/// The header of this name, which is given in lower case, where it stands.
#[tactic(auto, unfolding(crate::specs::Table::optional))]
pub(crate) fn optional<T: FromHeader + Drop>(
    alloc: Global,
    headers: &HeaderMap<HeaderValue>,
    name: &str,
) -> Result<Option<T>, Or<Fault>>
    requires lower { lowercase name.now ≡ name.now }
    ensures { Gives (λ x. x) result (optional name.now T.kind headers.now) }
{
    if !is_given(headers, name) {
        return Ok(None);
    }
    match needed(alloc, headers, name) {
        Ok(found) => Ok(Some(found)),
        Err(Or::Memory) => Err(Or::Memory),
        Err(Or::Fault(fault)) => Err(Or::Fault(fault)),
    }
}
