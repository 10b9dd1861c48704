//! The script of a workload.

ghost use Rattle.std.specs.Prelude.{◌≡◌, ◌≤◌, ◌<◌, ◌^◌, ◌++◌, ◌∷◌, [], length, map, IfOk, OnOk};
ghost use Rattle.event_script.specs.Line.{says};
ghost use Rattle.event_script.specs.Script.{Says, timed_from};
ghost use Rattle.workload.specs.Sequence.{next_number, drawn};
ghost use Rattle.workload.specs.Workload.{exchange, setup, turn, workload};

use crate::texts::{authorize, create_bucket, get_upload_url, request};
use b2_base::{Blob, ConnNum, Memory};
use event_script::Script;
use outside_traits::Event;
use std::alloc::Global;

/// The sequence's factor and its summand.
const FACTOR: u64 = 6_364_136_223_846_793_005;

const SUMMAND: u64 = 1_442_695_040_888_963_407;

// The number after this one.
fn next_number(x: u64) -> u64
    ensures { result ≡ next_number x }
{
    x.wrapping_mul(FACTOR).wrapping_add(SUMMAND)
}

// What is drawn of the number.
fn drawn(x: u64) -> u64
    ensures { result ≡ drawn x }
{
    x >> 33
}

fn conn(number: u32) -> ConnNum
    ensures { result ≡ number }
{
    ConnNum::new(number).unwrap()
}

// Adds a connection on which these bytes come, and which then can take the reply.
fn add_exchange(
    script: &mut Script,
    reading: u64,
    number: u32,
    bytes: Vec<u8>,
) -> Result<(), Memory>
    requires { length bytes.items ≤ 1024 }
    ensures timed { OnOk result (script.new.timed.items
        ≡ script.old.timed.items ++ timed_from reading (map says (exchange number bytes.items))) }
    ensures words { OnOk result (script.new.words.items ≡ script.old.words.items) }
{
    let c = conn(number);
    script.add_event(reading, Event::Open(c))?;
    script.add_event(reading, Event::Piece(c, Blob::of(bytes)))?;
    script.add_event(reading, Event::Ready(c))?;
    Ok(())
}

// Adds the request of this number, by the number of the sequence.
fn add_turn(alloc: Global, script: &mut Script, i: u32, x: u64) -> Result<(), Memory>
    requires { i ≤ 100000 }
    ensures timed { OnOk result (script.new.timed.items
        ≡ script.old.timed.items ++ timed_from 0 (map says (turn i x))) }
    ensures words { OnOk result (script.new.words.items ≡ script.old.words.items) }
{
    let bytes = request(alloc, i, drawn(x))?;
    add_exchange(script, i as u64, i + 3, bytes)?;
    Ok(())
}

// The random words of the tokens, and no event.
fn words(alloc: Global) -> Result<Script, Memory>
    ensures timed { IfOk result (λ s. s.timed.items ≡ []) }
    ensures words { IfOk result (λ s. s.words.items ≡ 1 ∷ 2 ∷ 3 ∷ 4 ∷ []) }
{
    let mut script = Script::new(alloc);
    script.add_word(1)?;
    script.add_word(2)?;
    script.add_word(3)?;
    script.add_word(4)?;
    Ok(script)
}

// The requests before the first that is drawn.
fn begin(alloc: Global) -> Result<Script, Memory>
    ensures timed { IfOk result (λ s. s.timed.items ≡ timed_from 0 (map says setup)) }
    ensures words { IfOk result (λ s. s.words.items ≡ 1 ∷ 2 ∷ 3 ∷ 4 ∷ []) }
{
    let mut script = words(alloc)?;
    let first = authorize(alloc)?;
    add_exchange(&mut script, 0, 1, first)?;
    let second = create_bucket(alloc)?;
    add_exchange(&mut script, 0, 2, second)?;
    let third = get_upload_url(alloc)?;
    add_exchange(&mut script, 0, 3, third)?;
    Ok(script)
}

/// The workload of this seed with so many requests, 1 to 100,000: a script over a fresh store that
/// authorizes the account, makes a bucket and gets an upload URL, and then uploads, hides and lists
/// files as the seed draws them, each request at its own moment on a connection of its own.
pub fn make_workload(alloc: Global, seed: u64, n: u32) -> Result<Script, Memory>
    requires some { 1 ≤ n }
    requires few { n ≤ 100000 }
    ensures { IfOk result (λ s. Says s (workload seed n)) }
{
    let mut script = begin(alloc)?;
    let mut x = seed;
    'turns: for i in 0..n {
        x = next_number(x);
        add_turn(alloc, &mut script, i + 1, x)?;
    }
    Ok(script)
}
