//! The lines of a script, read from their bytes.

ghost use Rattle.std.specs.Prelude.{◌≡◌, ◌≢◌, ◌<◌, ◌^◌, ◌++◌, ◌∷◌, ℕ, List, MatchOption, All, codes, decimal};
ghost use Rattle.event_script.specs.Reading.{Reads, IsOnConn};

use crate::piece::{piece_of, text_of};
use b2_base::{ConnNum, Or, behind, cut_at, read_decimal, read_sixteen};
use outside_traits::Event;
use std::alloc::Global;

/// What a line says.
#[derive(Drop)]
pub enum Said {
    /// The clock's reading at the events after it, in milliseconds since 1970.
    Reading(u64),
    /// The next random word.
    Random(u64),
    Happens(Event),
    Stop,
}

/// The text is no line of a script, or no script goes on with it.
#[derive(Clone, Copy, Debug, PartialEq, Eq)]
pub struct WrongLine;

fn number_of(text: &[u8]) -> Option<u32>
    ensures { MatchOption result ((n : ℕ) → n < 2 ^ 32 → text.now ≢ decimal n)
        (λ n. text.now ≡ decimal n) }
{
    let number = read_decimal(text)?;
    u32::try_from(number).ok()
}

fn conn(number: u32) -> ConnNum
    ensures { result ≡ number }
{
    ConnNum::new(number).unwrap()
}

// The number of a connection and what stands behind it, with a space between.
fn on_conn(text: &[u8]) -> Option<(u32, &[u8])>
    ensures { MatchOption result
        ((conn : ℕ) (rest : List ℕ) → conn < 2 ^ 32 → text.now ≢ decimal conn ++ 32 ∷ rest)
        (λ p. IsOnConn text.now p.0 p.1.now) }
{
    let Some((number, rest)) = cut_at(b' ', text) else {
        return None;
    };
    let Some(number) = number_of(number) else {
        return None;
    };
    Some((number, rest))
}

// The lines that are written so behind their keywords.

fn reading(rest: &[u8]) -> Result<Said, Or<WrongLine>>
    ensures { Reads (codes "at " ++ rest.now) result }
{
    let Some(time) = read_decimal(rest) else {
        return Err(Or::Fault(WrongLine));
    };
    Ok(Said::Reading(time))
}

fn random(rest: &[u8]) -> Result<Said, Or<WrongLine>>
    ensures { Reads (codes "word " ++ rest.now) result }
{
    let Some(word) = read_sixteen(rest) else {
        return Err(Or::Fault(WrongLine));
    };
    Ok(Said::Random(word))
}

fn opening(rest: &[u8]) -> Result<Said, Or<WrongLine>>
    ensures { Reads (codes "open " ++ rest.now) result }
{
    let Some(number) = number_of(rest) else {
        return Err(Or::Fault(WrongLine));
    };
    Ok(Said::Happens(Event::Open(conn(number))))
}

fn ready(rest: &[u8]) -> Result<Said, Or<WrongLine>>
    ensures { Reads (codes "ready " ++ rest.now) result }
{
    let Some(number) = number_of(rest) else {
        return Err(Or::Fault(WrongLine));
    };
    Ok(Said::Happens(Event::Ready(conn(number))))
}

fn gone(rest: &[u8]) -> Result<Said, Or<WrongLine>>
    ensures { Reads (codes "gone " ++ rest.now) result }
{
    let Some(number) = number_of(rest) else {
        return Err(Or::Fault(WrongLine));
    };
    Ok(Said::Happens(Event::Gone(conn(number))))
}

fn piece(alloc: Global, rest: &[u8]) -> Result<Said, Or<WrongLine>>
    ensures { Reads (codes "piece " ++ rest.now) result }
{
    let Some((number, digits)) = on_conn(rest) else {
        return Err(Or::Fault(WrongLine));
    };
    let bytes = match piece_of(alloc, digits) {
        Ok(bytes) => bytes,
        Err(Or::Memory) => return Err(Or::Memory),
        Err(Or::Fault(WrongLine)) => return Err(Or::Fault(WrongLine)),
    };
    Ok(Said::Happens(Event::Piece(conn(number), bytes)))
}

fn written(alloc: Global, rest: &[u8]) -> Result<Said, Or<WrongLine>>
    requires { All (λ b. b ≢ 10) rest.now }
    ensures { Reads (codes "line " ++ rest.now) result }
{
    let Some((number, text)) = on_conn(rest) else {
        return Err(Or::Fault(WrongLine));
    };
    let bytes = match text_of(alloc, text) {
        Ok(bytes) => bytes,
        Err(Or::Memory) => return Err(Or::Memory),
        Err(Or::Fault(WrongLine)) => return Err(Or::Fault(WrongLine)),
    };
    Ok(Said::Happens(Event::Piece(conn(number), bytes)))
}

/// What the line that is written so says.
pub fn read_line(alloc: Global, text: &[u8]) -> Result<Said, Or<WrongLine>>
    requires { All (λ b. b ≢ 10) text.now }
    ensures { Reads text.now result }
{
    if let Some(rest) = behind(b"at ", text) {
        return reading(rest);
    }
    if let Some(rest) = behind(b"word ", text) {
        return random(rest);
    }
    if let Some(rest) = behind(b"open ", text) {
        return opening(rest);
    }
    if let Some(rest) = behind(b"piece ", text) {
        return piece(alloc, rest);
    }
    if let Some(rest) = behind(b"line ", text) {
        return written(alloc, rest);
    }
    if let Some(rest) = behind(b"ready ", text) {
        return ready(rest);
    }
    if let Some(rest) = behind(b"gone ", text) {
        return gone(rest);
    }
    if text == b"stop".as_slice() {
        Ok(Said::Stop)
    } else {
        Err(Or::Fault(WrongLine))
    }
}
