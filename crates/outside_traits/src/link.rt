//! Connections: what happens on them, and what is sent on them.

ghost use Rattle.std.specs.Prelude.{◌≡◌, ◌⊎◌, ◌↔◌, ◌≤◌, ℕ, List, [], ◌∷◌, ◌++◌, Option, Some, All, length, IfOk, OnOk, OnErr, IsErr};
ghost use Rattle.outside_traits.specs.declared.link.Event.{Event as TheEvent};
ghost use Rattle.outside_traits.specs.declared.link.SentPiece.{SentPiece as TheRow};
ghost use Rattle.outside_traits.specs.Causes.{HasFaultCause, raised, Rose};
ghost use Rattle.outside_traits.specs.Links.{IsShort, GivesEvent, IfSent, SendsFront, HasSendCause};
ghost use Rattle.outside_traits.specs.declared.link.Sent.TheVariants.{Gone as SendGone, Failed as SendFailed};

use crate::Failed;
use crate::calls::Calls;
use b2_base::{Blob, ConnNum, Memory, Or};
use std::alloc::Global;
use std::mem;

/// What happens on the connections of a link.
#[derive(Drop)]
pub enum Event {
    Open(ConnNum),
    /// Bytes that came on the connection, after those that came before.
    Piece(ConnNum, Blob),
    /// The connection takes more of what is sent.
    Ready(ConnNum),
    /// The connection is lost.
    Gone(ConnNum),
    /// Nothing more happens.
    Stop,
}

/// What came of a send.
#[derive(Clone, Copy, Debug, PartialEq, Eq)]
pub enum Sent {
    /// So many bytes, the first ones, went to the connection.
    Sent(usize),
    /// The connection was lost, and no byte of this send went to it.
    Gone,
    /// The link failed, and no byte of this send went to the connection.
    Failed,
}

/// One send, as the connection took it.
#[derive(Drop)]
pub struct SentPiece {
    pub conn: ConnNum,
    pub bytes: Blob,
    /// The reply ends in these bytes, and the link closed the connection after them.
    pub last: bool,
}

/// The connections of a server: the events on all of them, one after the other, and the way back.
pub trait Link {
    /// The events that it is still to give, where the object tells them. After them comes Stop.
    ghost ahead: { Self → Option (List TheEvent) };

    /// What was sent, where the object tells it.
    ghost sent: { Self → Option (List TheRow) };

    /// How often it failed.
    ghost faults: { Self → ℕ };

    /// How many connections were found to be lost while something was sent on them.
    ghost losses: { Self → ℕ };

    /// The next event. A piece has at most 65,536 bytes.
    fn next(&mut self) -> Result<Event, Or<Failed>>
        ensures short { IfOk result IsShort }
        ensures event { GivesEvent (ahead self.old) (ahead self.new) result }
        ensures sent { sent self.new ≡ sent self.old }
        ensures losses { losses self.new ≡ losses self.old }
        ensures cause { HasFaultCause (faults self.old) (faults self.new) result };

    /// Sends the first n bytes on the connection, at least one where there are bytes. Where they are `last`
    /// and all were taken, the link closes the connection.
    fn send(&mut self, conn: ConnNum, bytes: &[u8], last: bool) -> Sent
        ensures sent { SendsFront conn bytes.now last (sent self.old) (sent self.new) result }
        ensures ahead { ahead self.new ≡ ahead self.old }
        ensures cause { HasSendCause (faults self.old) (faults self.new)
            (losses self.old) (losses self.new) result };
}

/// A link in memory, which gives a list of events. A send that is to be neither lost nor failed takes all its
/// bytes.
#[derive(Drop)]
pub struct MemLink {
    alloc: Global,
    events: Vec<Event>,
    at: usize,
    sent: Vec<SentPiece>,
    calls: Calls,
    gone: Vec<u64>,
    losses: u64,
    ghost within: { at ≤ length events.items },
    ghost short: { All IsShort events.items },
}

impl MemLink {
    ghost use Rattle.outside_traits.specs.Memory.{link_ahead, link_sent, link_calls, link_gone, link_losses};

    /// A link that gives these events, whose calls with the numbers in `fails` fail, and whose sends with
    /// the numbers in `gone` find their connection lost. One counter numbers all its calls from 1 on.
    pub fn new(alloc: Global, events: Vec<Event>, fails: Vec<u64>, gone: Vec<u64>) -> MemLink
        requires { All IsShort events.items }
        ensures ahead { link_ahead result ≡ events.items }
        ensures sent { link_sent result ≡ [] }
        ensures calls { link_calls result
            ≡ record { fails = fails; made = 0; faults = 0; short = 0 } }
        ensures gone { link_gone result ≡ gone.items }
        ensures losses { link_losses result ≡ 0 }
    {
        MemLink {
            alloc,
            events,
            at: 0,
            sent: Vec::new(alloc),
            calls: Calls::new(fails),
            gone,
            losses: 0,
        }
    }

    /// The sends, in their order, each with what its connection took.
    pub fn sent(&self) -> &[SentPiece]
        ensures { result.now ≡ link_sent self.now }
    {
        &self.sent
    }

    /// How many of its faults came for want of memory.
    pub fn short(&self) -> u64
        ensures { result ≡ (link_calls self.now).short }
    {
        self.calls.short
    }

    // Keeps a send as a row.
    fn keep(&mut self, conn: ConnNum, bytes: &[u8], last: bool) -> Result<(), Memory>
        ensures ok { OnOk result (link_sent self.new
            ≡ link_sent self.old ++ record { conn = conn; bytes = bytes.now; last = last } ∷ []) }
        ensures err { OnErr result (link_sent self.new ≡ link_sent self.old) }
        ensures ahead { link_ahead self.new ≡ link_ahead self.old }
        ensures calls { link_calls self.new ≡ link_calls self.old }
        ensures gone { link_gone self.new ≡ link_gone self.old }
        ensures losses { link_losses self.new ≡ link_losses self.old }
    {
        let bytes = Blob::copy(self.alloc, bytes)?;
        self.sent.push(SentPiece { conn, bytes, last })?;
        Ok(())
    }
}

impl Link for MemLink {
    ghost use Rattle.outside_traits.specs.Memory.{IsToFail, IsToBeLost, link_ahead, link_sent, link_calls, link_gone, link_losses};

    ghost ahead = { λ l. Some (link_ahead l) };

    ghost sent = { λ l. Some (link_sent l) };

    ghost faults = { λ l. (link_calls l).faults };

    ghost losses = { λ l. link_losses l };

    fn next(&mut self) -> Result<Event, Or<Failed>>
        ensures short { IfOk result IsShort }
        ensures event { GivesEvent (Some (link_ahead self.old)) (Some (link_ahead self.new)) result }
        ensures sent { Some (link_sent self.new) ≡ Some (link_sent self.old) }
        ensures losses { link_losses self.new ≡ link_losses self.old }
        ensures cause { HasFaultCause (link_calls self.old).faults
            (link_calls self.new).faults result }
        ensures fails { IsErr result ↔ IsToFail (link_calls self.old) }
        ensures counted { (link_calls self.new).made ≡ raised (link_calls self.old).made }
        ensures same { (link_calls self.new).fails ≡ (link_calls self.old).fails }
        ensures gone { link_gone self.new ≡ link_gone self.old }
    {
        if self.calls.fails_now() {
            return Err(Or::Fault(Failed));
        }
        if self.at == self.events.len() {
            return Ok(Event::Stop);
        }
        let event = mem::replace(&mut self.events[self.at], Event::Stop);
        self.at += 1;
        Ok(event)
    }

    fn send(&mut self, conn: ConnNum, bytes: &[u8], last: bool) -> Sent
        ensures sent { SendsFront conn bytes.now last
            (Some (link_sent self.old)) (Some (link_sent self.new)) result }
        ensures ahead { Some (link_ahead self.new) ≡ Some (link_ahead self.old) }
        ensures cause { HasSendCause (link_calls self.old).faults (link_calls self.new).faults
            (link_losses self.old) (link_losses self.new) result }
        ensures whole { IfSent result (λ n. n ≡ length bytes.now) }
        ensures listed { IsToFail (link_calls self.old) → result ≡ SendFailed }
        ensures lost { result ≡ SendGone
            ↔ (IsToFail (link_calls self.old) → ⊥) × IsToBeLost self.old }
        ensures fails { result ≡ SendFailed → IsToFail (link_calls self.old)
            ⊎ Rose (link_calls self.old).short (link_calls self.new).short }
        ensures counted { (link_calls self.new).made ≡ raised (link_calls self.old).made }
        ensures same { (link_calls self.new).fails ≡ (link_calls self.old).fails }
        ensures gone { link_gone self.new ≡ link_gone self.old }
    {
        if self.calls.fails_now() {
            return Sent::Failed;
        }
        if self.gone.contains(&self.calls.made) {
            self.losses = self.losses.saturating_add(1);
            return Sent::Gone;
        }
        if self.keep(conn, bytes, last).is_err() {
            self.calls.lacks_memory();
            return Sent::Failed;
        }
        Sent::Sent(bytes.len())
    }
}
