//! A script from a source.

ghost use Rattle.std.specs.Prelude.{◌≡◌, ◌<◌, ◌≤◌, ℕ, List, Option, length, vec_len, IfOk, OnOk, IfSome, MatchBool};
ghost use Rattle.std.specs.Io.KnownBytes.{Consumes, IsAtEnd};
ghost use Rattle.outside_traits.specs.Causes.{HasFaultCause};
ghost use Rattle.event_script.specs.Line.{Line};
ghost use Rattle.event_script.specs.Script.{ReadsScript, HasFirstWrong, GivesScript, CallsNoLineWrong, CallsWrong, HasSourceCause};

use crate::reader::{MOST_BYTES, parse};
use crate::script::{Script, ScriptFault};
use b2_base::Or;
use outside_traits::{Failed, Source};
use std::alloc::{AllocError, Global};

// How many bytes are asked of the source at once.
const PIECE: usize = 65_536;

// Room for a piece.
fn room(alloc: Global) -> Result<Vec<u8>, AllocError>
    ensures { IfOk result (λ v. vec_len v ≡ PIECE) }
{
    vec![in alloc; 0u8; PIECE]
}

// Adds the source's next bytes, and answers whether there were any.
fn read_piece<S: Source>(
    source: &mut S,
    piece: &mut [u8],
    bytes: &mut Vec<u8>,
) -> Result<bool, Or<Failed>>
    requires { 0 < length piece.old }
    ensures cause { HasFaultCause (S.faults source.old) (S.faults source.new) result }
    // What the source gave so far is what the vector holds.
    ensures taken { OnOk result ((first : Option (List ℕ))
        → Consumes first (S.left source.old) bytes.old.items
        → Consumes first (S.left source.new) bytes.new.items) }
    ensures more { IfOk result (λ more. MatchBool more
        (vec_len bytes.old < vec_len bytes.new) (IsAtEnd (S.left source.new))) }
{
    match source.read(piece) {
        Ok(0) => Ok(false),
        Ok(count) => {
            bytes.extend_from_slice(&piece[..count])?;
            Ok(true)
        }
        Err(Failed) => Err(Or::Fault(Failed)),
    }
}

// The source's bytes to its end, or more of them than a script may have.
fn read_bytes<S: Source>(alloc: Global, source: &mut S) -> Result<Vec<u8>, Or<Failed>>
    ensures cause { HasFaultCause (S.faults source.old) (S.faults source.new) result }
    ensures bytes { IfOk result (λ v. Consumes (S.left source.old) (S.left source.new) v.items) }
    ensures end { IfOk result (λ v. length v.items ≤ 67108864 → IsAtEnd (S.left source.new)) }
{
    let mut piece = room(alloc)?;
    let mut bytes = Vec::new(alloc);
    'pieces: while bytes.len() <= MOST_BYTES {
        if !read_piece(source, &mut piece, &mut bytes)? {
            return Ok(bytes);
        }
    }
    Ok(bytes)
}

/// Reads a script: the source's bytes to its end, at most 67,108,864 of them.
pub fn read_script<S: Source>(alloc: Global, source: &mut S) -> Result<Script, Or<ScriptFault>>
    ensures script { IfSome (S.left source.old) (λ bytes. GivesScript bytes result) }
    // No line of a script is wrong.
    ensures whole { IfSome (S.left source.old) (λ bytes. (lines : List Line)
        → ReadsScript bytes lines → CallsNoLineWrong result) }
    // Where one is, no other line is called so, and the bytes are not served.
    ensures wrong { IfSome (S.left source.old) (λ bytes. (number : ℕ)
        → HasFirstWrong bytes number → CallsWrong number result) }
    ensures cause { HasSourceCause (S.faults source.old) (S.faults source.new) result }
{
    let bytes = match read_bytes(alloc, source) {
        Ok(bytes) => bytes,
        Err(Or::Memory) => return Err(Or::Memory),
        Err(Or::Fault(Failed)) => return Err(Or::Fault(ScriptFault::SourceFault)),
    };
    let script = match parse(alloc, &bytes) {
        Ok(script) => script,
        Err(Or::Memory) => return Err(Or::Memory),
        Err(Or::Fault(bad)) => return Err(Or::Fault(ScriptFault::BadLine(bad.number))),
    };
    Ok(script)
}
