//! Standard input and output as a source and a sink: they count faults, and tell nothing of contents.

ghost use Rattle.std.specs.Prelude.{◌≡◌};

use outside_traits::{Failed, Sink, Source};
use std::io::{Read, Write};

/// A reader as a source.
#[derive(Drop)]
pub struct StdIn<R: Read + Drop> {
    inner: R,
    faults: u64,
}

impl<R: Read + Drop> StdIn<R> {
    /// No fault was counted yet.
    pub fn new(inner: R) -> StdIn<R>
        ensures { (result.inner ≡ inner) × (result.faults ≡ 0) }
    {
        StdIn { inner, faults: 0 }
    }
}

impl<R: Read + Drop> Source for StdIn<R> {
    ghost left = { λ s. R.remaining s.inner };

    ghost faults = { λ s. s.faults };

    fn read(&mut self, buf: &mut [u8]) -> Result<usize, Failed> {
        match self.inner.read(buf) {
            Ok(count) => Ok(count),
            Err(_) => {
                self.faults = self.faults.saturating_add(1);
                Err(Failed)
            }
        }
    }
}

/// A writer as a sink. A write that takes nothing is a fault.
#[derive(Drop)]
pub struct StdOut<W: Write + Drop> {
    inner: W,
    faults: u64,
}

impl<W: Write + Drop> StdOut<W> {
    /// No fault was counted yet.
    pub fn new(inner: W) -> StdOut<W>
        ensures { (result.inner ≡ inner) × (result.faults ≡ 0) }
    {
        StdOut { inner, faults: 0 }
    }
}

impl<W: Write + Drop> Sink for StdOut<W> {
    ghost contents = { λ s. W.contents s.inner };

    ghost faults = { λ s. s.faults };

    fn write(&mut self, bytes: &[u8]) -> Result<usize, Failed> {
        match self.inner.write(bytes) {
            Ok(0) if !bytes.is_empty() => {
                self.faults = self.faults.saturating_add(1);
                Err(Failed)
            }
            Ok(count) => Ok(count),
            Err(_) => {
                self.faults = self.faults.saturating_add(1);
                Err(Failed)
            }
        }
    }
}
