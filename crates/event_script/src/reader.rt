//! The reader of a script's lines.

ghost use Rattle.std.specs.Prelude.{◌≡◌, ◌≢◌, ◌+◌, ◌<◌, ◌≤◌, ◌^◌, ◌↔◌, List, [], ◌∷◌, ◌++◌, length, filter, All, IsTrue, IfOk, OnOk, true};
ghost use Rattle.b2_base.specs.Failure.{IfFault};
ghost use Rattle.event_script.specs.Line.{Line, line_text};
ghost use Rattle.event_script.specs.Script.{is_ready, IsBeginning, ReadsScript, HasFirstWrong, Says};
ghost use Rattle.event_script.specs.Reading.{Progress, AddsSaid, IsShortSaid};

use crate::line::{Said, WrongLine, read_line};
use crate::script::Script;
use b2_base::{Memory, Or, cut_at};
use outside_traits::Event;
use std::alloc::Global;

/// The most bytes of a script.
pub const MOST_BYTES: usize = 67_108_864;

/// The most lines of a script that say `ready`.
pub const MOST_READY: usize = 16_384;

// What was read so far.
#[derive(Drop)]
struct Reader {
    alloc: Global,
    script: Script,
    // The clock's reading at the next event.
    reading: u64,
    // How many of the lines so far say `ready`.
    ready: usize,
    // How many bytes the lines so far have, with their line feeds.
    size: usize,
    // `stop` was read.
    is_ended: bool,
}

impl Reader {
    fn new(alloc: Global) -> Reader
        ensures { Progress [] result }
    {
        Reader {
            alloc,
            script: Script::new(alloc),
            reading: 0,
            ready: 0,
            size: 0,
            is_ended: false,
        }
    }

    // Whether the lines so far are a whole script, and nothing stands after them.
    fn is_done(&self, rest: &[u8]) -> bool
        ensures { IsTrue result ↔ ((rest.now ≡ []) × (self.now.is_ended ≡ true)) }
    {
        rest.is_empty() && self.is_ended
    }
}

// How much a line that says this adds to the lines that say `ready`.
fn ready_in(said: &Said) -> usize
    ensures count { result ≡ length (filter is_ready (said.now ∷ [])) }
    ensures one { result ≤ 1 }
{
    if matches!(said, Said::Happens(Event::Ready(_))) {
        1
    } else {
        0
    }
}

impl Reader {
    // Adds what a line says.
    fn add(&mut self, said: Said) -> Result<(), Memory>
        requires { IsShortSaid said }
        ensures { OnOk result (AddsSaid said self.old self.new) }
    {
        match said {
            Said::Reading(time) => self.reading = time,
            Said::Random(word) => self.script.add_word(word)?,
            Said::Happens(event) => self.script.add_event(self.reading, event)?,
            Said::Stop => self.is_ended = true,
        }
        Ok(())
    }

    // Takes the next line, without its line feed.
    fn take(&mut self, text: &[u8]) -> Result<(), Or<WrongLine>>
        requires clean { All (λ b. b ≢ 10) text.now }
        requires room { self.old.size + length text.now + 1 < 2 ^ 64 }
        requires few { self.old.ready ≤ MOST_READY }
        ensures ok { OnOk result ((before : List Line) → Progress before self.old
            → (line : Line) × (text.now ≡ line_text line)
            × Progress (before ++ line ∷ []) self.new) }
        ensures wrong { IfFault result (λ _. (before : List Line) → Progress before self.old
            → (line : Line) → text.now ≡ line_text line → IsBeginning (before ++ line ∷ []) → ⊥) }
    {
        if self.is_ended {
            return Err(Or::Fault(WrongLine));
        }
        let size = self.size + text.len() + 1;
        if size > MOST_BYTES {
            return Err(Or::Fault(WrongLine));
        }
        let said = match read_line(self.alloc, text) {
            Ok(said) => said,
            Err(Or::Memory) => return Err(Or::Memory),
            Err(Or::Fault(WrongLine)) => return Err(Or::Fault(WrongLine)),
        };
        let ready = self.ready + ready_in(&said);
        if ready > MOST_READY {
            return Err(Or::Fault(WrongLine));
        }
        self.size = size;
        self.ready = ready;
        self.add(said)?;
        Ok(())
    }
}

/// The line of this number, counted from 1, is the first that is wrong.
#[derive(Clone, Copy, Debug, PartialEq, Eq)]
pub struct BadLine {
    pub number: u64,
}

/// What the bytes of a script say, all of them.
pub fn parse(alloc: Global, bytes: &[u8]) -> Result<Script, Or<BadLine>>
    ensures script { IfOk result (λ s. (lines : List Line) × ReadsScript bytes.now lines
        × Says s lines) }
    ensures wrong { IfFault result (λ bad. HasFirstWrong bytes.now bad.number) }
{
    let mut reader = Reader::new(alloc);
    let mut rest = bytes;
    let mut number = 1u64;
    'lines: while let Some((text, behind)) = cut_at(b'\n', rest) {
        match reader.take(text) {
            Ok(()) => {}
            Err(Or::Memory) => return Err(Or::Memory),
            Err(Or::Fault(WrongLine)) => return Err(Or::Fault(BadLine { number })),
        }
        rest = behind;
        number += 1;
    }
    if reader.is_done(rest) {
        Ok(reader.script)
    } else {
        Err(Or::Fault(BadLine { number }))
    }
}
