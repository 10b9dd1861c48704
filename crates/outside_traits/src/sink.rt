//! What is written to.

ghost use Rattle.std.specs.Prelude.{◌≡◌, ◌<◌, ◌≤◌, ◌⊎◌, ℕ, List, [], Option, Some, length, IfOk, OnErr, OnOk, IsErr};
ghost use Rattle.std.specs.Io.{WritesAtMost};
ghost use Rattle.std.specs.Io.KnownBytes.{Appends, WriteAppends};
ghost use Rattle.outside_traits.specs.Bytes.{AppendsFront};
ghost use Rattle.outside_traits.specs.Causes.{raised, Rose, HasCause};

use crate::Failed;
use crate::calls::Calls;
use std::alloc::Global;

/// Something that takes bytes, in order.
pub trait Sink {
    /// The bytes that it took, where the object tells them.
    ghost contents: { Self → Option (List ℕ) };

    /// How often it failed.
    ghost faults: { Self → ℕ };

    /// Takes a front of `bytes` and answers its length: at least 1 where there are bytes.
    fn write(&mut self, bytes: &[u8]) -> Result<usize, Failed>
        ensures bound { WritesAtMost result bytes.now }
        ensures taken { IfOk result (λ n. 0 < length bytes.now → 0 < n) }
        ensures bytes { WriteAppends (contents self.old) (contents self.new) result bytes.now }
        ensures cause { HasCause (faults self.old) (faults self.new) result };
}

/// A sink in memory, which takes all bytes of each call that doesn't fail.
#[derive(Debug, Drop)]
pub struct MemSink {
    bytes: Vec<u8>,
    calls: Calls,
}

impl MemSink {
    ghost use Rattle.outside_traits.specs.Memory.{sink_bytes, sink_calls};

    /// An empty sink, whose calls with the numbers in `fails` fail.
    pub fn new(alloc: Global, fails: Vec<u64>) -> MemSink
        ensures bytes { sink_bytes result ≡ [] }
        ensures calls { sink_calls result
            ≡ record { fails = fails; made = 0; faults = 0; short = 0 } }
    {
        MemSink {
            bytes: Vec::new(alloc),
            calls: Calls::new(fails),
        }
    }

    /// The bytes that it took.
    pub fn bytes(&self) -> &[u8]
        ensures { result.now ≡ sink_bytes self.now }
    {
        &self.bytes
    }

    /// How many of its faults came for want of memory.
    pub fn short(&self) -> u64
        ensures { result ≡ (sink_calls self.now).short }
    {
        self.calls.short
    }
}

impl Sink for MemSink {
    ghost use Rattle.outside_traits.specs.Memory.{IsToFail, sink_bytes, sink_calls};

    ghost contents = { λ s. Some (sink_bytes s) };

    ghost faults = { λ s. (sink_calls s).faults };

    fn write(&mut self, bytes: &[u8]) -> Result<usize, Failed>
        ensures bound { WritesAtMost result bytes.now }
        ensures taken { IfOk result (λ n. 0 < length bytes.now → 0 < n) }
        ensures bytes { WriteAppends
            (Some (sink_bytes self.old)) (Some (sink_bytes self.new)) result bytes.now }
        ensures cause { HasCause (sink_calls self.old).faults (sink_calls self.new).faults result }
        ensures all { IfOk result (λ n. n ≡ length bytes.now) }
        ensures listed { IsToFail (sink_calls self.old) → IsErr result }
        ensures fails { OnErr result (IsToFail (sink_calls self.old)
            ⊎ Rose (sink_calls self.old).short (sink_calls self.new).short) }
        ensures counted { (sink_calls self.new).made ≡ raised (sink_calls self.old).made }
        ensures same { (sink_calls self.new).fails ≡ (sink_calls self.old).fails }
    {
        if self.calls.fails_now() {
            return Err(Failed);
        }
        if self.bytes.extend_from_slice(bytes).is_err() {
            self.calls.lacks_memory();
            return Err(Failed);
        }
        Ok(bytes.len())
    }
}

/// Writes the bytes, all of them. At an `Err` the sink took a front of them.
pub fn write_all<K: Sink>(sink: &mut K, bytes: &[u8]) -> Result<(), Failed>
    ensures ok { OnOk result (Appends (K.contents sink.old) (K.contents sink.new) bytes.now) }
    ensures err { OnErr result
        (AppendsFront (K.contents sink.old) (K.contents sink.new) bytes.now) }
    ensures cause { HasCause (K.faults sink.old) (K.faults sink.new) result }
{
    let mut at = 0;
    'writes: while at < bytes.len() {
        at += sink.write(&bytes[at..])?;
    }
    Ok(())
}
