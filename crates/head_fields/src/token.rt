//! The token of a request.

ghost use Rattle.std.specs.Prelude.{IfOk};
ghost use Rattle.head_fields.specs.Token.{IsTextOf, IsToken, IsDownloadToken};

use crate::query::first_param;
use b2_base::{Memory, Text};
use std::alloc::Global;
use wire_forms::Request;

/// The text that the bytes are; other bytes count as the empty text.
pub(crate) fn text_of(alloc: Global, bytes: &[u8]) -> Result<Text, Memory>
    ensures { IfOk result (λ t. IsTextOf bytes.now t) }
{
    let Ok(text) = str::from_utf8(bytes) else {
        let empty = Text::copy(alloc, "")?;
        return Ok(empty);
    };
    let text = Text::copy(alloc, text)?;
    Ok(text)
}

/// The token that the first `Authorization` header says, where there is one.
pub fn token_of(alloc: Global, request: &Request) -> Result<Option<Text>, Memory>
    ensures { IfOk result (λ token. IsToken request.now token) }
{
    let Some(value) = request.headers.get("authorization") else {
        return Ok(None);
    };
    let text = text_of(alloc, value.as_bytes())?;
    Ok(Some(text))
}

/// The token of a download, which may stand in the query.
pub fn download_token(alloc: Global, request: &Request) -> Result<Option<Text>, Memory>
    ensures { IfOk result (λ token. IsDownloadToken request.now token) }
{
    if let Some(token) = token_of(alloc, request)? {
        return Ok(Some(token));
    }
    let token = first_param(alloc, request.query.get().as_bytes(), "Authorization")?;
    Ok(token)
}
