//! The bytes of a reply that are sent next.

ghost use Rattle.std.specs.Prelude.{◌≡◌, ◌≤◌, ◌<◌, ◌+◌, ◌-◌, ◌++◌, ◌^◌, ◌==◌, not, ◌&&◌, drop, take, min, length, IfOk};
ghost use Rattle.conn_talk.specs.Talk.{size_of};
ghost use Rattle.served_world.specs.World.{handed};
ghost use Rattle.event_loop.specs.Serving.{HasBounds};

use b2_base::{Blob, Memory};
use conn_talk::Pending;
use std::alloc::Global;

// The most bytes that the link is handed at once.
const MOST_HANDED: usize = 65_536;

// What stands from the place on.
#[tactic(auto, using(crate::proofs::Lists::none_left))]
fn rest_from(bytes: &[u8], at: u64) -> &[u8]
    ensures { result.now ≡ drop at bytes.now }
{
    let at = at as usize;
    if at < bytes.len() { &bytes[at..] } else { &[] }
}

// At most so many bytes from the front.
#[tactic(auto, using(crate::proofs::Lists::no_more))]
fn front_of(bytes: &[u8], most: usize) -> &[u8]
    ensures { result.now ≡ take most bytes.now }
{
    if bytes.len() > most {
        &bytes[..most]
    } else {
        bytes
    }
}

/// The next bytes of the reply's text.
pub(crate) fn handed(pending: &Pending<Blob>) -> &[u8]
    requires { pending.now.sent < 2 ^ 64 }
    ensures { result.now ≡ handed pending.now }
{
    let left = rest_from(pending.text.get(), pending.sent);
    front_of(left, MOST_HANDED)
}

/// The place in its content from which on the reply is to be sent.
pub(crate) fn content_place(pending: &Pending<Blob>) -> u64
    ensures { result ≡ pending.now.sent - length pending.now.text }
{
    pending.sent.saturating_sub(pending.text.get().len() as u64)
}

// How many bytes of the reply are to be sent.
fn left_of(pending: &Pending<Blob>) -> u64
    requires { HasBounds pending.now }
    ensures { result ≡ size_of pending.now - pending.now.sent }
{
    pending.text.get().len() as u64 + pending.len - pending.sent
}

// How many bytes of its content the link is handed after so many of its text, of so many at most.
fn wanted_of(left: u64, most: usize, part: usize) -> usize
    requires part { part ≤ most }
    ensures { result ≡ min (most - part) (left - part) }
{
    let room = most - part;
    let rest = left.saturating_sub(part as u64);
    if (room as u64) < rest {
        room
    } else {
        rest as usize
    }
}

/// How many bytes of its content the link is handed after so many of its text.
pub(crate) fn content_wanted(pending: &Pending<Blob>, part: usize) -> usize
    requires bounds { HasBounds pending.now }
    requires part { part ≤ 65536 }
    ensures { result ≡ min (65536 - part) (size_of pending.now - pending.now.sent - part) }
{
    wanted_of(left_of(pending), MOST_HANDED, part)
}

/// One after the other.
pub(crate) fn one_blob(alloc: Global, first: &[u8], second: Blob) -> Result<Blob, Memory>
    ensures { IfOk result (λ bytes. bytes ≡ first.now ++ second) }
{
    if first.is_empty() {
        return Ok(second);
    }
    let mut all = first.to_vec(alloc)?;
    all.extend_from_slice(second.get())?;
    Ok(Blob::of(all))
}

/// Whether the reply ends in so many bytes more, and its connection with it.
pub(crate) fn is_last(pending: &Pending<Blob>, more: usize) -> bool
    requires within { pending.now.sent + more ≤ size_of pending.now }
    requires small { size_of pending.now < 2 ^ 64 }
    ensures { result ≡ ((pending.now.sent + more == size_of pending.now)
        && not pending.now.stay) }
{
    let size = pending.text.get().len() as u64 + pending.len;
    (pending.sent + more as u64 == size) & !pending.stay
}
