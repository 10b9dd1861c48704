//! The link is handed the next bytes of a reply.

ghost use Rattle.std.specs.Prelude.{◌≡◌, ◌≤◌, ◌+◌, List, [], ◌∷◌, ◌++◌, ℕ, IfOk, OnOk, length};
ghost use Rattle.outside_traits.specs.Memory.{link_ahead, link_sent};
ghost use Rattle.b2_model.specs.State.{State};
ghost use Rattle.conn_talk.specs.Talk.{size_of};
ghost use Rattle.served_world.specs.World.{handed};
ghost use Rattle.request_acts.specs.Answering.{Uploads, Contents};
ghost use Rattle.request_acts.specs.Doing.{joined};
ghost use Rattle.event_loop.specs.Serving.{HasBounds, IsHanded, IsWilling, sent_of};

use crate::bytes::{content_place, content_wanted, handed, is_last, one_blob};
use b2_base::{Blob, ConnNum};
use conn_talk::Pending;
use outside_traits::{Link, MemLink, Sent};
use request_acts::{Answering, End};
use std::alloc::Global;

// The next bytes of a reply that has a content: what is left of its text, and then what is read of
// the content.
fn read_next<S: Answering>(
    alloc: Global,
    store: &mut S,
    c: ConnNum,
    pending: &Pending<Blob>,
) -> Result<Blob, End>
    requires { HasBounds pending.now }
    ensures bytes { (M : State (List ℕ)) (words : List ℕ) (ups : Uploads) (outs : Contents)
        → S.at store.old M words ups outs → pending.now.len ≡ length (outs c)
        → IfOk result (λ bytes. S.at store.new M words ups outs
        × (bytes ≡ handed (joined (outs c) pending.now))) }
    ensures within { IfOk result (λ bytes. pending.now.sent + length bytes ≤ size_of pending.now) }
{
    let part = handed(pending);
    let most = content_wanted(pending, part.len());
    let from = content_place(pending);
    let content = store.read_out(alloc, c, from, most)?;
    let bytes = one_blob(alloc, part, content)?;
    Ok(bytes)
}

// Hands the link these bytes of the reply: how many they are.
fn hand_over(
    c: ConnNum,
    pending: &Pending<Blob>,
    bytes: &[u8],
    link: &mut MemLink,
) -> Result<u64, End>
    requires bounds { HasBounds pending.now }
    requires within { pending.now.sent + length bytes.now ≤ size_of pending.now }
    requires willing { IsWilling link.old }
    ensures willing { OnOk result (IsWilling link.new) }
    ensures ahead { link_ahead link.new ≡ link_ahead link.old }
    ensures count { IfOk result (λ n. n ≡ length bytes.now) }
    ensures sent { OnOk result (link_sent link.new
        ≡ link_sent link.old ++ sent_of c pending.now bytes.now ∷ []) }
{
    let n = bytes.len();
    let last = is_last(pending, n);
    match link.send(c, bytes, last) {
        Sent::Sent(_) => Ok(n as u64),
        Sent::Gone => unreachable!(),
        Sent::Failed => Err(End::Memory),
    }
}

/// Hands the link the next bytes of the reply that is pending on the connection: how many they are.
pub(crate) fn hand_next<S: Answering>(
    alloc: Global,
    store: &mut S,
    c: ConnNum,
    pending: &Pending<Blob>,
    link: &mut MemLink,
) -> Result<u64, End>
    requires bounds { HasBounds pending.now }
    requires willing { IsWilling link.old }
    ensures willing { OnOk result (IsWilling link.new) }
    ensures ahead { link_ahead link.new ≡ link_ahead link.old }
    ensures within { IfOk result (λ n. pending.now.sent + n ≤ size_of pending.now) }
    ensures handed { (M : State (List ℕ)) (words : List ℕ) (ups : Uploads) (outs : Contents)
        → S.at store.old M words ups outs → pending.now.len ≡ length (outs c)
        → IfOk result (λ n. S.at store.new M words ups outs
        × IsHanded c (joined (outs c) pending.now) n (link_sent link.old) (link_sent link.new)) }
{
    if pending.len == 0 {
        let n = hand_over(c, pending, handed(pending), link)?;
        return Ok(n);
    }
    let bytes = read_next(alloc, store, c, pending)?;
    let n = hand_over(c, pending, bytes.get(), link)?;
    Ok(n)
}
