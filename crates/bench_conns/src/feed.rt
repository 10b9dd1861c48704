//! Connections that take pieces.

ghost use Rattle.std.specs.Prelude.{◌≡◌, ◌<◌, OnSome};
ghost use Rattle.bench_conns.specs.Sound.{IsSound};

use b2_base::ConnNum;
use conn_table::Conns;
use std::alloc::Global;

/// The connections that take pieces in turn.
const CONNS: u32 = 32;

// A piece comes on the connection; so many acts.
fn feed(alloc: Global, conns: &mut Conns<()>, c: ConnNum, piece: &[u8]) -> Option<u64>
    requires { IsSound conns.old }
    ensures { OnSome result (IsSound conns.new) }
{
    if !conns.is_open(c) {
        return None;
    }
    let Ok(acts) = conns.piece(alloc, c, piece) else {
        return None;
    };
    Some(acts.len() as u64)
}

// The connection is closed, if it is open, and opened.
fn reopen(alloc: Global, conns: &mut Conns<()>, c: ConnNum) -> Option<()>
    requires { IsSound conns.old }
    ensures { OnSome result (IsSound conns.new) }
{
    conns.gone(c);
    match conns.open(alloc, c) {
        Ok(()) => Some(()),
        Err(_) => None,
    }
}

// The bytes come on a connection that is opened for them.
fn one(alloc: Global, conns: &mut Conns<()>, bytes: &[u8], piece: usize) -> Option<u64>
    requires sound { IsSound conns.old }
    requires some { 0 < piece }
    ensures { OnSome result (IsSound conns.new) }
{
    let c = ConnNum::new(0)?;
    reopen(alloc, conns, c)?;
    let mut sum = 0u64;
    for part in bytes.chunks(piece) {
        sum = sum.wrapping_add(feed(alloc, conns, c, part)?);
    }
    Some(sum)
}

/// The bytes come in such pieces on a connection, so many times; so many acts.
pub fn in_pieces(alloc: Global, bytes: &[u8], piece: usize, times: u64) -> Option<u64>
    requires { 0 < piece }
{
    let mut conns = Conns::new(alloc);
    let mut sum = 0u64;
    for _ in 0..times {
        sum = sum.wrapping_add(one(alloc, &mut conns, bytes, piece)?);
    }
    Some(sum)
}

// The piece comes on each connection.
fn feed_all(alloc: Global, conns: &mut Conns<()>, piece: &[u8]) -> Option<u64>
    requires { IsSound conns.old }
    ensures { OnSome result (IsSound conns.new) }
{
    let mut sum = 0u64;
    for c in 0..CONNS {
        sum = sum.wrapping_add(feed(alloc, conns, ConnNum::new(c)?, piece)?);
    }
    Some(sum)
}

fn reopen_all(alloc: Global, conns: &mut Conns<()>) -> Option<()>
    requires { IsSound conns.old }
    ensures { OnSome result (IsSound conns.new) }
{
    for c in 0..CONNS {
        reopen(alloc, conns, ConnNum::new(c)?)?;
    }
    Some(())
}

// The bytes come on all connections at once.
fn all(alloc: Global, conns: &mut Conns<()>, bytes: &[u8], piece: usize) -> Option<u64>
    requires sound { IsSound conns.old }
    requires some { 0 < piece }
    ensures { OnSome result (IsSound conns.new) }
{
    reopen_all(alloc, conns)?;
    let mut sum = 0u64;
    for part in bytes.chunks(piece) {
        sum = sum.wrapping_add(feed_all(alloc, conns, part)?);
    }
    Some(sum)
}

/// The bytes come in such pieces on each connection, one after the other, so many times; so many
/// acts.
pub fn interleaved(alloc: Global, bytes: &[u8], piece: usize, times: u64) -> Option<u64>
    requires { 0 < piece }
{
    let mut conns = Conns::new(alloc);
    let mut sum = 0u64;
    for _ in 0..times {
        sum = sum.wrapping_add(all(alloc, &mut conns, bytes, piece)?);
    }
    Some(sum)
}
