//! What the acts of a connection come to.

ghost use Rattle.std.specs.Prelude.{◌≡◌, ◌<◌, ◌+◌, ◌^◌, None, IfOk, MatchOption, option_map, length, ⊤};
ghost use Rattle.std.specs.List.{AllByRecursion};
ghost use Rattle.request_acts.specs.Answering.{reads, pending, IsServedAct, IsUnsent};
ghost use Rattle.request_acts.specs.Doing.{Carries, HasDone};

use crate::answering::Answering;
use crate::ends::End;
use crate::replies::{Reply, refusal_text};
use b2_base::{Blob, ConnNum};
use b2_types::Fault;
use conn_talk::{Act, Pending};
use std::alloc::Global;

// A reply of which nothing was sent, with so many bytes of a content after its text.
fn unsent(text: Blob, len: u64, stay: bool) -> Pending<Blob>
    ensures { result ≡ pending text len stay }
{
    Pending {
        text,
        body: None,
        len,
        sent: 0,
        stay,
    }
}

// The reply without a content, where there is one, of which nothing was sent.
fn unsent_text(text: Option<Blob>, stay: bool) -> Option<Pending<Blob>>
    ensures { result ≡ option_map (λ t. pending t 0 stay) text }
{
    match text {
        Some(text) => Some(unsent(text, 0, stay)),
        None => None,
    }
}

// Carries out an act, and answers the reply that it brings. The request of an End stays where `stay`
// says so.
fn carry<S: Answering>(
    alloc: Global,
    store: &mut S,
    reading: u64,
    c: ConnNum,
    stay: bool,
    act: &Act,
) -> Result<Option<Pending<Blob>>, End>
    requires { IsServedAct act.now }
    ensures does { IfOk result (Carries (reads S.call S.upload) reading c stay (S.at store.old)
        act.now (S.at store.new)) }
    ensures unsent { IfOk result (λ reply. MatchOption reply ⊤ IsUnsent) }
{
    match act {
        Act::Whole(head, body) => {
            let Reply { text, len } = store.answer(alloc, reading, c, head, body.get())?;
            Ok(Some(unsent(text, len, head.request.stay)))
        }
        Act::Begin(head) => {
            let refused = store.begin(alloc, reading, c, head)?;
            Ok(unsent_text(refused, false))
        }
        Act::Body(bytes) => {
            store.piece(alloc, c, bytes.get())?;
            Ok(None)
        }
        Act::End => {
            let text = store.end(alloc, reading, c, stay)?;
            Ok(unsent_text(text, stay))
        }
        Act::Refuse(fault) => {
            let text = refusal_text(alloc, Fault::plain(fault.kind))?;
            Ok(Some(unsent(text, 0, false)))
        }
    }
}

/// Carries out the acts that a piece brings, up to the one that brings a reply, and answers the
/// reply. The request of an End stays where `stay` says so.
pub fn carry_all<S: Answering>(
    alloc: Global,
    store: &mut S,
    reading: u64,
    c: ConnNum,
    stay: bool,
    acts: &[Act],
) -> Result<Option<Pending<Blob>>, End>
    requires { AllByRecursion IsServedAct acts.now }
    ensures does { IfOk result (HasDone (reads S.call S.upload) reading c stay (S.at store.old)
        acts.now (S.at store.new)) }
    ensures unsent { IfOk result (λ reply. MatchOption reply ⊤ IsUnsent) }
    ensures some { IfOk result (λ reply. MatchOption reply ⊤ (λ _. 0 < length acts.now)) }
{
    'acts: for act in acts {
        if let Some(reply) = carry(alloc, store, reading, c, stay, act)? {
            return Ok(Some(reply));
        }
    }
    Ok(None)
}
