//! What is read from.

ghost use Rattle.std.specs.Prelude.{◌≡◌, ◌<◌, ◌≤◌, ◌-◌, ◌↔◌, ℕ, List, Option, Some, min, length, take, drop, IsErr};
ghost use Rattle.std.specs.Io.{ReadsAtMost};
ghost use Rattle.std.specs.Io.KnownBytes.{ReadConsumes};
ghost use Rattle.outside_traits.specs.Causes.{raised, HasCause};

use crate::Failed;
use crate::calls::Calls;

/// Something that gives bytes, in order, until its end.
pub trait Source {
    /// The bytes that are left, where the object tells them.
    ghost left: { Self → Option (List ℕ) };

    /// How often it failed.
    ghost faults: { Self → ℕ };

    /// Fills a front of `buf` with the next bytes and answers how many: 0 only at the end.
    fn read(&mut self, buf: &mut [u8]) -> Result<usize, Failed>
        requires { 0 < length buf.old }
        ensures bound { ReadsAtMost result buf.new }
        ensures bytes { ReadConsumes (left self.old) (left self.new) result buf.new }
        ensures cause { HasCause (faults self.old) (faults self.new) result };
}

/// A source in memory.
#[derive(Debug, Drop)]
pub struct MemSource {
    bytes: Vec<u8>,
    at: usize,
    calls: Calls,
    ghost within: { at ≤ length bytes.items },
}

impl MemSource {
    ghost use Rattle.outside_traits.specs.Memory.{source_left, source_calls};

    /// A source of these bytes, whose calls with the numbers in `fails` fail.
    pub fn new(bytes: Vec<u8>, fails: Vec<u64>) -> MemSource
        ensures left { source_left result ≡ bytes.items }
        ensures calls { source_calls result
            ≡ record { fails = fails; made = 0; faults = 0; short = 0 } }
    {
        MemSource {
            bytes,
            at: 0,
            calls: Calls::new(fails),
        }
    }

    /// How many of its faults came for want of memory: none, since it needs none.
    pub fn short(&self) -> u64
        ensures { result ≡ (source_calls self.now).short }
    {
        self.calls.short
    }
}

// Copies what is left from `at` on into the front of `buf`, as far as there is room.
fn copy_from(bytes: &[u8], at: usize, buf: &mut [u8]) -> usize
    requires { at ≤ length bytes.now }
    ensures count { result ≡ min (length bytes.now - at) (length buf.old) }
    ensures bytes { take result buf.new ≡ take result (drop at bytes.now) }
{
    let rest = &bytes[at..];
    let count = rest.len().min(buf.len());
    buf[..count].copy_from_slice(&rest[..count]);
    count
}

impl Source for MemSource {
    ghost use Rattle.outside_traits.specs.Memory.{IsToFail, source_left, source_calls};

    ghost left = { λ s. Some (source_left s) };

    ghost faults = { λ s. (source_calls s).faults };

    fn read(&mut self, buf: &mut [u8]) -> Result<usize, Failed>
        ensures bound { ReadsAtMost result buf.new }
        ensures bytes { ReadConsumes
            (Some (source_left self.old)) (Some (source_left self.new)) result buf.new }
        ensures cause { HasCause (source_calls self.old).faults
            (source_calls self.new).faults result }
        ensures fails { IsErr result ↔ IsToFail (source_calls self.old) }
        ensures counted { (source_calls self.new).made ≡ raised (source_calls self.old).made }
        ensures same { (source_calls self.new).fails ≡ (source_calls self.old).fails }
        ensures short { (source_calls self.new).short ≡ (source_calls self.old).short }
    {
        if self.calls.fails_now() {
            return Err(Failed);
        }
        let count = copy_from(&self.bytes, self.at, buf);
        self.at += count;
        Ok(count)
    }
}
