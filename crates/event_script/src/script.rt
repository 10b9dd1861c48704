//! What a script says.

ghost use Rattle.std.specs.Prelude.{◌≡◌, [], ◌∷◌, ◌++◌, length, All, OnOk, IfOk};
ghost use Rattle.outside_traits.specs.Links.{IsShort};

use b2_base::{Blob, Memory};
use outside_traits::{Event, ListClock, ListWords, MemLink};
use std::alloc::Global;

/// An event, with the clock's reading at it.
#[derive(Drop)]
pub struct Timed {
    /// In milliseconds since 1970.
    pub reading: u64,
    pub event: Event,
}

/// A script: what happens, and the random words.
#[derive(Drop)]
pub struct Script {
    timed: Vec<Timed>,
    words: Vec<u64>,
    ghost short: { All (λ t. IsShort t.event) timed.items },
}

/// Why a script was not read.
#[derive(Clone, Copy, Debug, PartialEq, Eq)]
pub enum ScriptFault {
    /// The source failed.
    SourceFault,
    /// The line of this number, counted from 1, is the first that is wrong.
    BadLine(u64),
}

/// The connections of a script: its events, and what is sent on them.
pub type ScriptLink = MemLink;

/// The clock of a script: the reading at each event.
pub type ScriptClock = ListClock;

/// The random words of a script.
pub type ScriptWords = ListWords;

impl Script {
    /// The script without a line.
    pub fn new(alloc: Global) -> Script
        ensures timed { result.timed.items ≡ [] }
        ensures words { result.words.items ≡ [] }
    {
        Script {
            timed: Vec::new(alloc),
            words: Vec::new(alloc),
        }
    }

    /// Adds what happens next, at this reading of the clock.
    pub fn add_event(&mut self, reading: u64, event: Event) -> Result<(), Memory>
        requires { IsShort event }
        ensures timed { OnOk result (self.new.timed.items
            ≡ self.old.timed.items ++ record { reading = reading; event = event } ∷ []) }
        ensures words { OnOk result (self.new.words ≡ self.old.words) }
    {
        self.timed.push(Timed { reading, event })?;
        Ok(())
    }

    /// Adds the next random word.
    pub fn add_word(&mut self, word: u64) -> Result<(), Memory>
        ensures words { OnOk result (self.new.words.items ≡ self.old.words.items ++ word ∷ []) }
        ensures timed { OnOk result (self.new.timed ≡ self.old.timed) }
    {
        self.words.push(word)?;
        Ok(())
    }
}

// The same event.
fn copy_of(alloc: Global, event: &Event) -> Result<Event, Memory>
    ensures { IfOk result (λ e. e ≡ event.now) }
{
    Ok(match event {
        Event::Open(conn) => Event::Open(*conn),
        Event::Piece(conn, bytes) => Event::Piece(*conn, Blob::copy(alloc, bytes.get())?),
        Event::Ready(conn) => Event::Ready(*conn),
        Event::Gone(conn) => Event::Gone(*conn),
        Event::Stop => Event::Stop,
    })
}

impl Script {
    ghost use Rattle.outside_traits.specs.Lists.{clock_ahead, clock_last, words_ahead};
    ghost use Rattle.outside_traits.specs.Memory.{link_ahead};
    ghost use Rattle.event_script.specs.Script.{script_events, script_readings, script_words};
    ghost use Rattle.event_script.specs.Shown.{IsFresh};

    fn events(&self, alloc: Global) -> Result<Vec<Event>, Memory>
        ensures { IfOk result (λ v. v.items ≡ script_events self.now) }
    {
        let mut events = Vec::with_capacity(alloc, self.timed.len())?;
        'events: for timed in &self.timed {
            events.push(copy_of(alloc, &timed.event)?)?;
        }
        Ok(events)
    }

    /// How many turns it has: an event each, and the reading at it.
    pub fn turns(&self) -> usize
        ensures events { result ≡ length (script_events self.now) }
        ensures readings { result ≡ length (script_readings self.now) }
    {
        let timed: &[Timed] = &self.timed;
        timed.len()
    }

    /// A link that gives the script's events, after which comes `Stop`. Each send takes all its bytes,
    /// and fails for want of memory alone.
    pub fn link(&self, alloc: Global) -> Result<ScriptLink, Memory>
        ensures events { IfOk result (λ l. link_ahead l ≡ script_events self.now) }
        ensures fresh { IfOk result IsFresh }
    {
        let events = self.events(alloc)?;
        Ok(MemLink::new(alloc, events, Vec::new(alloc), Vec::new(alloc)))
    }

    /// A clock that gives the reading at each event, for a server that reads it once at each.
    pub fn clock(&self, alloc: Global) -> Result<ScriptClock, Memory>
        ensures readings { IfOk result (λ c. clock_ahead c ≡ script_readings self.now) }
        ensures last { IfOk result (λ c. clock_last c ≡ 0) }
    {
        let mut readings = Vec::with_capacity(alloc, self.timed.len())?;
        'readings: for timed in &self.timed {
            readings.push(timed.reading)?;
        }
        Ok(ListClock::new(readings))
    }

    /// A giver of the script's random words, and then of zeros.
    pub fn words(&self, alloc: Global) -> Result<ScriptWords, Memory>
        ensures { IfOk result (λ w. words_ahead w ≡ script_words self.now) }
    {
        Ok(ListWords::new(self.words.to_vec(alloc)?))
    }
}
