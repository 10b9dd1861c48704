//! The open connections.

ghost use Rattle.std.specs.Prelude.{◌≡◌, ◌≤◌, ◌<◌, ◌+◌, ◌^◌, ℕ, [], Option, Some, None, IsSome, IfOk, OnOk, OnErr, MatchOption, length, if◌then◌else◌};
ghost use Rattle.std.specs.Option.{is_some, option_copied};
ghost use Rattle.b2_base.specs.Failure.{IfFault, UnlessFault};
ghost use Rattle.conn_talk.specs.declared.pending.Pending.{Pending as TheReply};
ghost use Rattle.conn_talk.specs.Talk.{Talk, first_talk, TakesPiece, shown, size_of, with_sent, given_back, talk_after, asks_stay, is_uploading};
ghost use Rattle.conn_table.specs.Ends.{closes};
ghost use Rattle.conn_table.specs.Table.{conn_at, count_of, held_at, kept_at, pending_at, IsTalk, KeepsOthers};

use crate::conn::Conn;
use crate::incoming::MOST_HELD;
use b2_base::{ConnNum, Memory, Or};
use conn_talk::{Act, Pending};
use std::alloc::Global;
use std::collections::BTreeMap;

/// The most connections that are open at once.
const MOST_OPEN: usize = 32;

/// The most bytes that a connection holds of its request: those of a head, and of the body of a
/// call.
pub const MOST_OF_REQUEST: usize = 1_064_960;

/// As many connections are open as may be.
#[derive(Clone, Copy, Debug, PartialEq, Eq)]
pub struct TooMany;

/// The open connections by their numbers, each with what came of its request, or with the reply to
/// it. A reply may have a `B` as its body. After `Memory` the table is not used again.
#[derive(Drop)]
pub struct Conns<B> {
    pub(crate) conns: BTreeMap<u32, Conn<B>>,
}

impl<B: Drop> Conns<B> {
    /// No connections.
    pub fn new(alloc: Global) -> Conns<B>
        ensures closed { (c : ℕ) → conn_at result c ≡ None }
        ensures count { count_of result ≡ 0 }
    {
        Conns {
            conns: BTreeMap::new(alloc),
        }
    }

    /// Whether the connection is open.
    pub fn is_open(&self, c: ConnNum) -> bool
        ensures { result ≡ is_some (conn_at self.now c) }
    {
        self.conns.contains_key(&c.get())
    }

    /// Opens the connection: a new one, also where its number was used before.
    pub fn open(&mut self, alloc: Global, c: ConnNum) -> Result<(), Or<TooMany>>
        requires { conn_at self.old c ≡ None }
        ensures talk { OnOk result (IsTalk self.new c (Some first_talk)) }
        ensures count { OnOk result (count_of self.new ≡ count_of self.old + 1) }
        ensures full { IfFault result (λ _. 32 ≤ count_of self.old) }
        ensures room { UnlessFault result (count_of self.old < 32) }
        ensures others { OnOk result (KeepsOthers c self.old self.new) }
        ensures err { OnErr result (self.new.conns.entries ≡ self.old.conns.entries) }
    {
        if self.conns.len() >= MOST_OPEN {
            return Err(Or::Fault(TooMany));
        }
        self.conns.insert(c.get(), Conn::new(alloc))?;
        Ok(())
    }

    /// Bytes come on the connection: the acts that they bring.
    pub fn piece(&mut self, alloc: Global, c: ConnNum, bytes: &[u8]) -> Result<Vec<Act>, Memory>
        requires { (a : Talk B) × IsTalk self.old c (Some a) }
        ensures acts { (a : Talk B) → IsTalk self.old c (Some a) → IfOk result (λ acts.
            (b : Talk B) × TakesPiece a bytes.now acts.items b × IsTalk self.new c (Some b)) }
        ensures held { OnOk result (held_at self.new c ≤ MOST_OF_REQUEST) }
        ensures behind { IsSome (pending_at self.old c)
            → OnOk result (held_at self.new c ≤ MOST_HELD) }
        ensures others { KeepsOthers c self.old self.new }
        ensures count { count_of self.new ≡ count_of self.old }
    {
        let Some(conn) = self.conns.get_mut(&c.get()) else {
            unreachable!();
        };
        conn.piece(alloc, bytes)
    }

    /// The acts of the bytes that were held while the former reply was sent: those of one piece of
    /// the next request.
    pub fn drained(&mut self, alloc: Global, c: ConnNum) -> Result<Vec<Act>, Memory>
        requires { (a : Talk B) × IsTalk self.old c (Some a) }
        ensures acts { (a : Talk B) → IsTalk self.old c (Some a) → IfOk result (λ acts.
            (b : Talk B) × TakesPiece a [] acts.items b × IsTalk self.new c (Some b)) }
        ensures held { OnOk result (held_at self.new c ≤ MOST_OF_REQUEST) }
        ensures others { KeepsOthers c self.old self.new }
        ensures count { count_of self.new ≡ count_of self.old }
    {
        self.piece(alloc, c, &[])
    }

    /// Answers the request of the connection.
    pub fn answer(&mut self, c: ConnNum, reply: Pending<B>)
        requires open { IsSome (conn_at self.old c) }
        requires unanswered { pending_at self.old c ≡ None }
        requires text { 0 < length reply.text }
        requires unsent { reply.sent ≡ 0 }
        requires small { size_of reply < 2 ^ 64 }
        ensures talk { (a : Talk B) → IsTalk self.old c (Some a)
            → IsTalk self.new c (Some (record a { reply = Some reply })) }
        ensures others { KeepsOthers c self.old self.new }
        ensures count { count_of self.new ≡ count_of self.old }
    {
        if let Some(conn) = self.conns.get_mut(&c.get()) {
            conn.answer(reply);
        }
    }

    /// What is to be sent on the connection.
    pub fn ready(&self, c: ConnNum) -> Option<&Pending<B>>
        ensures pending { option_copied result ≡ pending_at self.now c }
        ensures talk { (a : Talk B) → IsTalk self.now c (Some a) → option_copied result ≡ shown a }
    {
        match self.conns.get(&c.get()) {
            Some(conn) => conn.reply.as_ref(),
            None => None,
        }
    }

    /// So many more bytes of its reply were sent. A reply that ends is handed back: where it
    /// stays, the connection goes on with the next request, and else it is closed.
    pub fn sent(&mut self, c: ConnNum, n: u64) -> Option<Pending<B>>
        requires { MatchOption (pending_at self.old c) ⊥ (λ p. p.sent + n ≤ size_of p) }
        ensures reply { (a : Talk B) (p : TheReply B) → IsTalk self.old c (Some a)
            → a.reply ≡ Some p → result ≡ given_back a (with_sent n p) }
        ensures talk { (a : Talk B) (p : TheReply B) → IsTalk self.old c (Some a)
            → a.reply ≡ Some p → IsTalk self.new c (talk_after a (with_sent n p)) }
        ensures others { KeepsOthers c self.old self.new }
        ensures count { count_of self.new + (if closes result then 1 else 0)
            ≡ count_of self.old }
    {
        let Some(conn) = self.conns.get_mut(&c.get()) else {
            return None;
        };
        let reply = conn.sent(n)?;
        if !reply.stay {
            self.conns.remove(&c.get());
        }
        Some(reply)
    }

    /// The connection is closed: what was still to be sent.
    pub fn gone(&mut self, c: ConnNum) -> Option<Pending<B>>
        ensures reply { result ≡ pending_at self.old c }
        ensures closed { conn_at self.new c ≡ None }
        ensures others { KeepsOthers c self.old self.new }
        ensures count { count_of self.new + (if is_some (conn_at self.old c) then 1 else 0)
            ≡ count_of self.old }
    {
        let Conn { incoming: _, reply } = self.conns.remove(&c.get())?;
        reply
    }

    /// How many bytes the connection keeps as they came, of its request or after it. A head that
    /// was read is kept in its parts beside them.
    pub fn kept(&self, c: ConnNum) -> usize
        ensures size { result ≡ kept_at self.now c }
        ensures request { (a : Talk B) → IsTalk self.now c (Some a)
            → held_at self.now c ≤ MOST_OF_REQUEST }
        ensures behind { (a : Talk B) → IsTalk self.now c (Some a) → IsSome a.reply
            → held_at self.now c ≤ MOST_HELD }
    {
        match self.conns.get(&c.get()) {
            Some(conn) => conn.incoming.bytes.len(),
            None => 0,
        }
    }

    /// Whether an act told the request of the connection, and its client asks for another one.
    pub fn asks_stay(&self, c: ConnNum) -> bool
        ensures { (a : Option (Talk B)) → IsTalk self.now c a → result ≡ asks_stay a }
    {
        match self.conns.get(&c.get()) {
            Some(conn) => conn.incoming.stay,
            None => false,
        }
    }

    /// Whether an act told that an upload begins on the connection, and it has no answer.
    pub fn uploading(&self, c: ConnNum) -> bool
        ensures { (a : Option (Talk B)) → IsTalk self.now c a → result ≡ is_uploading a }
    {
        match self.conns.get(&c.get()) {
            Some(conn) => conn.incoming.upload & conn.reply.is_none(),
            None => false,
        }
    }
}
