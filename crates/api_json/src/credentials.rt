//! Basic credentials.

ghost use Rattle.std.specs.Prelude.{◌≡◌, ℕ, List, IfOk, IfSome, MatchOption};
ghost use Rattle.wire_forms.specs.Basic.{IsBasic};
ghost use Rattle.api_json.specs.Basic.{IsPair};
ghost use Rattle.api_json.specs.Call.{HasCredentials};

use b2_base::{Memory, Text};
use b2_types::{ApiVersion, Authorize, Credentials};
use base64::DecodeAllocError;
use base64::engine::general_purpose::STANDARD;
use std::alloc::Global;
use wire_forms::Request;

// The two sides of the first colon.
fn split_pair(bytes: &[u8]) -> Option<(&str, &str)>
    ensures { MatchOption result ((id secret : List ℕ) → IsPair bytes.now id secret → ⊥)
        (λ p. IsPair bytes.now p.0.now p.1.now) }
{
    let Ok(text) = str::from_utf8(bytes) else {
        return None;
    };
    text.split_once(':')
}

/// The id and the secret that a `Basic` value gives, or none where it gives none.
pub fn basic(alloc: Global, value: &[u8]) -> Result<Option<Credentials>, Memory>
    ensures pair { IfOk result
        (λ o. MatchOption o ((id secret : List ℕ) → IsBasic value.now id secret → ⊥)
        (λ c. IsBasic value.now c.id c.secret)) }
    // It gives no other pair.
    ensures only { IfOk result
        (λ o. IfSome o (λ c. (id secret : List ℕ) → IsBasic value.now id secret
        → (id ≡ c.id) × (secret ≡ c.secret))) }
{
    let Some(encoded) = value.strip_prefix(b"Basic ") else {
        return Ok(None);
    };
    let bytes = match STANDARD.decode(alloc, encoded) {
        Ok(bytes) => bytes,
        Err(DecodeAllocError::OutOfMemory) => return Err(Memory),
        Err(DecodeAllocError::DecodeError(_)) => return Ok(None),
    };
    let Some((id, secret)) = split_pair(&bytes) else {
        return Ok(None);
    };
    let id = Text::copy(alloc, id)?;
    let secret = Text::copy(alloc, secret)?;
    Ok(Some(Credentials { id, secret }))
}

/// The authorize call that a request is under this version of the API.
pub fn authorize_call(
    alloc: Global,
    version: ApiVersion,
    request: &Request,
) -> Result<Authorize, Memory>
    ensures version { IfOk result (λ call. call.version ≡ version) }
    ensures credentials { IfOk result (λ call. HasCredentials request.now call.credentials) }
{
    let credentials = match request.headers.get("authorization") {
        Some(value) => basic(alloc, value.as_bytes())?,
        None => None,
    };
    Ok(Authorize {
        version,
        credentials,
    })
}
