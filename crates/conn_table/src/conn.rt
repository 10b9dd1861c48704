//! One connection.

ghost use Rattle.std.specs.Prelude.{◌≡◌, ◌≤◌, ◌<◌, ◌+◌, ◌^◌, Some, None, MatchOption, IfOk, ⊤, if◌then◌else◌};
ghost use Rattle.conn_table.specs.Incoming.{IsSought};
ghost use Rattle.conn_talk.specs.Talk.{Talk, first_talk, IsPending, TakesPiece, size_of, is_whole, with_sent, given_back, talk_after};
ghost use Rattle.conn_table.specs.Table.{IsConn};
ghost use Rattle.conn_talk.specs.declared.pending.Pending.{Pending as TheReply};

use crate::incoming::Incoming;
use b2_base::Memory;
use conn_talk::{Act, Pending};
use std::alloc::Global;
use std::mem;

/// What came of its request, and the reply that is pending.
#[derive(Drop)]
pub(crate) struct Conn<B> {
    pub(crate) incoming: Incoming,
    pub(crate) reply: Option<Pending<B>>,
}

impl<B: Drop> Conn<B> {
    /// A connection on which nothing came.
    pub(crate) fn new(alloc: Global) -> Conn<B>
        ensures { IsConn first_talk result }
    {
        Conn {
            incoming: Incoming::new(alloc),
            reply: None,
        }
    }

    /// Bytes come.
    pub(crate) fn piece(&mut self, alloc: Global, bytes: &[u8]) -> Result<Vec<Act>, Memory>
        requires { self.old.reply ≡ None
            → IsSought self.old.incoming.stage self.old.incoming.bytes.items }
        ensures { (a : Talk B) → IsConn a self.old → IfOk result (λ acts.
            (b : Talk B) × TakesPiece a bytes.now acts.items b × IsConn b self.new) }
    {
        match &mut self.reply {
            None => self.incoming.piece(alloc, bytes),
            Some(reply) => {
                self.incoming.hold(bytes)?;
                reply.stay &= self.incoming.goes_on();
                Ok(Vec::new(alloc))
            }
        }
    }

    /// Its request is answered.
    pub(crate) fn answer(&mut self, mut reply: Pending<B>)
        requires { self.old.reply ≡ None }
        ensures { (a : Talk B) → IsConn a self.old → IsPending reply
            → IsConn (record a { reply = Some reply }) self.new }
    {
        self.incoming.answer();
        reply.stay &= self.incoming.goes_on();
        self.reply = Some(reply);
    }

    /// So many more bytes of its reply are sent. A reply that ends is handed back, and the next
    /// request comes if it stays.
    pub(crate) fn sent(&mut self, n: u64) -> Option<Pending<B>>
        requires { MatchOption self.old.reply ⊥ (λ p. p.sent + n ≤ size_of p) }
        ensures reply { (a : Talk B) (p : TheReply B) → IsConn a self.old → a.reply ≡ Some p
            → result ≡ given_back a (with_sent n p) }
        ensures talk { (a : Talk B) (p : TheReply B) → IsConn a self.old → a.reply ≡ Some p
            → MatchOption (talk_after a (with_sent n p)) ⊤ (λ b. IsConn b self.new) }
    {
        let reply = self.raised(n)?;
        if reply.stay {
            self.incoming.next();
        }
        Some(reply)
    }

    // The reply with so many more bytes that were sent, if it ends.
    fn raised(&mut self, n: u64) -> Option<Pending<B>>
        requires { MatchOption self.old.reply ⊥ (λ p. p.sent + n ≤ size_of p) }
        ensures whole { (p : TheReply B) → self.old.reply ≡ Some p → size_of p < 2 ^ 64
            → result ≡ (if is_whole (with_sent n p) then Some (with_sent n p) else None) }
        ensures left { (p : TheReply B) → self.old.reply ≡ Some p → size_of p < 2 ^ 64
            → self.new.reply ≡ (if is_whole (with_sent n p) then None else Some (with_sent n p)) }
        ensures incoming { self.new.incoming ≡ self.old.incoming }
    {
        let Some(mut reply) = mem::replace(&mut self.reply, None) else {
            return None;
        };
        reply.sent = reply.sent.saturating_add(n);
        let size = (reply.text.get().len() as u64).saturating_add(reply.len);
        if reply.sent < size {
            self.reply = Some(reply);
            return None;
        }
        Some(reply)
    }
}
