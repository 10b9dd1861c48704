//! The top call.

ghost use Rattle.std.specs.Prelude.{◌≡◌, ◌↔◌, ℕ, List, Some, IsTrue, IfOk, IfSome};
ghost use Rattle.outside_traits.specs.Causes.{Rose};
ghost use Rattle.outside_traits.specs.Memory.{link_sent};
ghost use Rattle.event_script.specs.Line.{Line};
ghost use Rattle.event_script.specs.Script.{ReadsScript, HasFirstWrong, script_events, script_readings, script_words};
ghost use Rattle.b2_server.specs.Run.{IsReplay, Sends, IsNotUsage, IsNotBadLine, CallsWrong, Leaves, SourceCause, SinkCause, Quiet, IsOkOrMemory};

use crate::store::FirstStore;
use b2_base::{Or, Text};
use event_loop::serve;
use event_script::{Script, ScriptFault, ScriptLink, read_script, write_sent};
use outside_traits::{Failed, Sink, Source};
use request_acts::End;
use std::alloc::Global;

/// How a run ended.
#[derive(Clone, Copy, Debug, PartialEq, Eq)]
pub enum Status {
    Ok,
    /// The words of the command line are none that the program knows.
    Usage,
    /// There was not enough memory.
    Memory,
    /// The script could not be read.
    SourceFault,
    /// The output could not be written, or not all of it.
    SinkFault,
    /// The script's line of this number, counted from 1, is the first that is wrong.
    BadLine(u64),
}

// Serves the script's events, and answers the link with what was sent.
fn serve_script(alloc: Global, script: &Script) -> Result<ScriptLink, End>
    ensures { IfOk result (λ link. Sends (script_words script.now) (script_events script.now)
        (script_readings script.now) (link_sent link)) }
{
    let words = script.words(alloc)?;
    let mut store = FirstStore::new(alloc, words)?;
    let mut link = script.link(alloc)?;
    let mut clock = script.clock(alloc)?;
    serve(alloc, &mut store, &mut link, &mut clock, script.turns())?;
    Ok(link)
}

// Reads the script, serves it and writes what was sent.
fn replay<S: Source, K: Sink>(alloc: Global, script: &mut S, out: &mut K) -> Status
    ensures known { IsNotUsage result }
    ensures leaves { IfSome (S.left script.old)
        (λ bytes. Leaves bytes (K.contents out.old) (K.contents out.new) result) }
    ensures whole { IfSome (S.left script.old) (λ bytes. (lines : List Line)
        → ReadsScript bytes lines → IsNotBadLine result) }
    ensures wrong { IfSome (S.left script.old) (λ bytes. (number : ℕ) → HasFirstWrong bytes number
        → CallsWrong number result) }
    ensures source { SourceCause (S.faults script.old) (S.faults script.new) result }
    ensures sink { SinkCause (K.faults out.old) (K.faults out.new) result }
    ensures quiet { Quiet out.old out.new result }
{
    let script = match read_script(alloc, script) {
        Ok(script) => script,
        Err(Or::Memory) => return Status::Memory,
        Err(Or::Fault(ScriptFault::SourceFault)) => return Status::SourceFault,
        Err(Or::Fault(ScriptFault::BadLine(number))) => return Status::BadLine(number),
    };
    // The store has no disk, so that only memory can be wanting.
    let Ok(link) = serve_script(alloc, &script) else {
        return Status::Memory;
    };
    match write_sent(&link, out) {
        Ok(()) => Status::Ok,
        Err(Failed) => Status::SinkFault,
    }
}

fn is_replay(words: &[Text]) -> bool
    ensures { IsTrue result ↔ IsReplay words.now }
{
    match words {
        [word] => word.get() == "replay",
        _ => false,
    }
}

/// All that the program does: with the word `replay` it reads the script, serves its events and writes
/// what was sent.
pub fn run_b2d<S: Source, K: Sink>(
    alloc: Global,
    words: &[Text],
    script: &mut S,
    out: &mut K,
) -> Status
    // Other words are refused, and nothing else is.
    ensures usage { (result ≡ Status.Usage) ↔ (IsReplay words.now → ⊥) }
    ensures unread { result ≡ Status.Usage → script.new ≡ script.old }

    // From the script's bytes to the output's.
    ensures leaves { IfSome (S.left script.old)
        (λ bytes. Leaves bytes (K.contents out.old) (K.contents out.new) result) }

    // Where a line is the first wrong one, no other is called so, and nothing is served.
    ensures wrong { IsReplay words.now
        → IfSome (S.left script.old) (λ bytes. (number : ℕ) → HasFirstWrong bytes number
        → CallsWrong number result) }

    // A fault comes only from the object whose count rose.
    ensures source { SourceCause (S.faults script.old) (S.faults script.new) result }
    ensures sink { SinkCause (K.faults out.old) (K.faults out.new) result }
    ensures quiet { Quiet out.old out.new result }

    // A script in the grammar is served, where no count rises.
    ensures complete { IsReplay words.now → (bytes : List ℕ) (lines : List Line)
        → S.left script.old ≡ Some bytes → ReadsScript bytes lines
        → (Rose (S.faults script.old) (S.faults script.new) → ⊥)
        → (Rose (K.faults out.old) (K.faults out.new) → ⊥) → IsOkOrMemory result }
{
    if is_replay(words) {
        replay(alloc, script, out)
    } else {
        Status::Usage
    }
}
