//! What is done at each event.

ghost use Rattle.std.specs.Prelude.{◌≡◌, ◌≤◌, ◌<◌, ◌+◌, true, List, [], ◌∷◌, ◌++◌, ℕ, Some, None, MatchOption, OnOk, length};
ghost use Rattle.std.specs.Option.{is_some};
ghost use Rattle.outside_traits.specs.Links.{front_sent};
ghost use Rattle.outside_traits.specs.Memory.{link_ahead, link_sent};
ghost use Rattle.outside_traits.specs.declared.link.Event.TheVariants as event;
ghost use Rattle.conn_talk.specs.declared.pending.Pending.{Pending as TheReply};
ghost use Rattle.conn_talk.specs.Talk.{Talk, size_of, is_whole, with_sent};
ghost use Rattle.conn_table.specs.Table.{conn_at, count_of, IsTalk, pending_at};
ghost use Rattle.served_world.specs.World.{Conn as TheConn, World, with_conn, conn_after, IsPiece, IsAfterSend};
ghost use Rattle.request_acts.specs.Answering.{Uploads, Contents, reads};
ghost use Rattle.event_loop.specs.Serving.{IsTable, IsWorld, IsWilling, HasOpened, Steps, Serves, Takes, Loses};

use crate::handing::hand_next;
use b2_base::{Blob, ConnNum, Or};
use conn_table::{Conns, TooMany};
use outside_traits::{Event, Link, MemLink, Sent};
use request_acts::{Answering, End, carry_all};
use std::alloc::Global;

// Bytes come on an open connection.
fn read_bytes<S: Answering>(
    alloc: Global,
    conns: &mut Conns<Blob>,
    store: &mut S,
    reading: u64,
    c: ConnNum,
    bytes: &[u8],
) -> Result<(), End>
    requires { (a : Talk (List ℕ)) × IsTalk conns.old c (Some a) }
    ensures { OnOk result ((w : World) (k : TheConn)
        → IsWorld (reads S.call S.upload) (S.at store.old) conns.old (with_conn w c (Some k))
        → (v : World) × IsPiece (reads S.call S.upload) reading w c k bytes.now v
        × IsWorld (reads S.call S.upload) (S.at store.new) conns.new v × (v.sends ≡ w.sends)) }
{
    let acts = conns.piece(alloc, c, bytes)?;
    if acts.is_empty() {
        return Ok(());
    }
    let stay = conns.asks_stay(c);
    let Some(reply) = carry_all(alloc, store, reading, c, stay, &acts)? else {
        return Ok(());
    };
    conns.answer(c, reply);
    Ok(())
}

fn on_piece<S: Answering>(
    alloc: Global,
    conns: &mut Conns<Blob>,
    store: &mut S,
    reading: u64,
    c: ConnNum,
    bytes: &[u8],
) -> Result<(), End>
    requires { (w : World) × (ups : Uploads) × (outs : Contents)
        × IsTable (reads S.call S.upload) ups outs conns.old w }
    ensures { OnOk result (Steps (reads S.call S.upload) (S.at store.old) conns.old
        (Takes (reads S.call S.upload) reading c bytes.now) (S.at store.new) conns.new) }
{
    if !conns.is_open(c) {
        return Ok(());
    }
    read_bytes(alloc, conns, store, reading, c, bytes)?;
    Ok(())
}

// So many bytes of its reply were sent. Where the reply ends, its content is read no longer, and the
// connection is closed, or the bytes that were held are read.
fn after_send<S: Answering>(
    alloc: Global,
    conns: &mut Conns<Blob>,
    store: &mut S,
    reading: u64,
    c: ConnNum,
    n: u64,
) -> Result<(), End>
    requires talk { (a : Talk (List ℕ)) × (p : TheReply (List ℕ))
        × IsTalk conns.old c (Some a) × (a.reply ≡ Some p) }
    requires within { MatchOption (pending_at conns.old c) ⊥ (λ p. p.sent + n ≤ size_of p) }
    ensures { OnOk result ((w : World) (k : TheConn) (p : TheReply (List ℕ)) (bytes : List ℕ)
        → IsWorld (reads S.call S.upload) (S.at store.old) conns.old w → w.conns c ≡ Some k → k.talk.reply ≡ Some p
        → n ≡ length bytes
        → (v : World) × IsAfterSend (reads S.call S.upload) reading w c (conn_after k bytes p) p
        (is_whole (with_sent (length bytes) p)) v
        × IsWorld (reads S.call S.upload) (S.at store.new) conns.new v × (v.sends ≡ w.sends)) }
{
    let Some(reply) = conns.sent(c, n) else {
        return Ok(());
    };
    store.finish_out(alloc, c)?;
    if !reply.stay {
        return Ok(());
    }
    read_bytes(alloc, conns, store, reading, c, &[])?;
    Ok(())
}

fn on_ready<S: Answering>(
    alloc: Global,
    conns: &mut Conns<Blob>,
    store: &mut S,
    reading: u64,
    c: ConnNum,
    link: &mut MemLink,
) -> Result<(), End>
    requires world { (w : World) × (ups : Uploads) × (outs : Contents)
        × IsTable (reads S.call S.upload) ups outs conns.old w }
    requires willing { IsWilling link.old }
    ensures willing { OnOk result (IsWilling link.new) }
    ensures ahead { link_ahead link.new ≡ link_ahead link.old }
    ensures served { OnOk result (Serves (reads S.call S.upload) reading (event.Ready c)
        (S.at store.old) conns.old (link_sent link.old)
        (S.at store.new) conns.new (link_sent link.new)) }
{
    let Some(pending) = conns.ready(c) else {
        return Ok(());
    };
    let n = hand_next(alloc, store, c, pending, link)?;
    after_send(alloc, conns, store, reading, c, n)?;
    Ok(())
}

fn on_open(
    alloc: Global,
    conns: &mut Conns<Blob>,
    c: ConnNum,
    link: &mut MemLink,
) -> Result<(), End>
    requires willing { IsWilling link.old }
    ensures willing { OnOk result (IsWilling link.new) }
    ensures ahead { link_ahead link.new ≡ link_ahead link.old }
    ensures stays { is_some (conn_at conns.old c) ≡ true
        → OnOk result ((conns.new ≡ conns.old) × (link_sent link.new ≡ link_sent link.old)) }
    ensures opened { conn_at conns.old c ≡ None → count_of conns.old < 32
        → OnOk result (HasOpened c conns.old conns.new × (link_sent link.new ≡ link_sent link.old)) }
    ensures full { conn_at conns.old c ≡ None → 32 ≤ count_of conns.old
        → OnOk result ((conns.new.conns.entries ≡ conns.old.conns.entries)
        × (link_sent link.new ≡ link_sent link.old ++ front_sent c [] true 0 ∷ [])) }
{
    if conns.is_open(c) {
        return Ok(());
    }
    match conns.open(alloc, c) {
        Ok(()) => Ok(()),
        Err(Or::Memory) => Err(End::Memory),
        Err(Or::Fault(TooMany)) => match link.send(c, &[], true) {
            Sent::Sent(_) => Ok(()),
            Sent::Gone => unreachable!(),
            Sent::Failed => Err(End::Memory),
        },
    }
}

// The connection is lost, and with it the upload that is under way on it. What is left of its reply is
// not read.
fn on_gone<S: Answering>(
    alloc: Global,
    conns: &mut Conns<Blob>,
    store: &mut S,
    reading: u64,
    c: ConnNum,
) -> Result<(), End>
    requires { (w : World) × (ups : Uploads) × (outs : Contents)
        × IsTable (reads S.call S.upload) ups outs conns.old w }
    ensures { OnOk result (Steps (reads S.call S.upload) (S.at store.old) conns.old
        (Loses reading c) (S.at store.new) conns.new) }
{
    let is_uploading = conns.uploading(c);
    conns.gone(c);
    store.finish_out(alloc, c)?;
    if is_uploading {
        store.lost(alloc, reading, c)?;
    }
    Ok(())
}

/// What the server does at an event, at this reading of the clock in milliseconds since 1970. After an
/// `Err` neither the table nor what answers is used again.
pub fn serve_event<S: Answering>(
    alloc: Global,
    conns: &mut Conns<Blob>,
    store: &mut S,
    reading: u64,
    event: &Event,
    link: &mut MemLink,
) -> Result<(), End>
    requires world { (w : World) × (ups : Uploads) × (outs : Contents)
        × IsTable (reads S.call S.upload) ups outs conns.old w }
    requires willing { IsWilling link.old }
    ensures willing { OnOk result (IsWilling link.new) }
    ensures ahead { link_ahead link.new ≡ link_ahead link.old }
    ensures served { OnOk result (Serves (reads S.call S.upload) reading event.now
        (S.at store.old) conns.old (link_sent link.old)
        (S.at store.new) conns.new (link_sent link.new)) }
{
    match event {
        Event::Open(c) => {
            on_open(alloc, conns, *c, link)?;
            Ok(())
        }
        Event::Piece(c, bytes) => {
            on_piece(alloc, conns, store, reading, *c, bytes.get())?;
            Ok(())
        }
        Event::Ready(c) => {
            on_ready(alloc, conns, store, reading, *c, link)?;
            Ok(())
        }
        Event::Gone(c) => {
            on_gone(alloc, conns, store, reading, *c)?;
            Ok(())
        }
        Event::Stop => Ok(()),
    }
}
