//! The outside: what is read from and written to, with a count of faults that never falls, and forms
//! in memory that tell their contents.
#![tactic(auto)]

mod calls;
mod clock;
mod link;
mod sink;
mod source;
mod words;

pub use calls::Calls;
pub use clock::{Clock, ListClock};
pub use link::{Event, Link, MemLink, Sent, SentPiece};
pub use sink::{MemSink, Sink, write_all};
pub use source::{MemSource, Source};
pub use words::{ListWords, Words};

/// A call on the outside failed, and its object has counted it.
#[derive(Clone, Copy, Debug, PartialEq, Eq)]
pub struct Failed;

#[cfg(test)]
mod tests;
