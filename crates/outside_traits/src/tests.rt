//! The lists, to their ends and after them, a sink, and a link.

use crate::{
    Clock, Event, Failed, Link, ListClock, ListWords, MemLink, MemSink, Sent, Sink, Words,
};
use b2_base::{Blob, ConnNum, Or};
use std::alloc::Global;
use std::test::Fail;

#[test]
fn lists(rt: HostRuntime) -> Result<(), Fail> {
    let alloc = rt.alloc();
    let mut clock = ListClock::new(vec![in alloc; 5, 3]?);
    let mut words = ListWords::new(vec![in alloc; 7]?);
    for (reading, word) in [(5, 7), (3, 0), (3, 0)] {
        assert_eq!(rt; clock.now(), reading);
        assert_eq!(rt; words.next(), word);
    }
    let mut empty = ListClock::new(Vec::new(alloc));
    assert_eq!(rt; empty.now(), 0);
    Ok(())
}

#[test]
fn takes(rt: HostRuntime) -> Result<(), Fail> {
    let alloc = rt.alloc();
    let mut sink = MemSink::new(alloc, vec![in alloc; 2]?);
    assert_eq!(rt; sink.write(b"ab"), Ok(2));
    assert_eq!(rt; sink.write(b"cd"), Err(Failed));
    assert_eq!(rt; sink.write(b"ef"), Ok(2));
    assert_eq!(rt; sink.bytes(), b"abef".as_slice());
    Ok(())
}

// Opens a connection, brings it a piece, and stops. The second use of the link fails, and the fifth, which is
// a send, finds the connection lost.
fn link(alloc: Global, conn: ConnNum) -> Result<MemLink, Fail> {
    let piece = Event::Piece(conn, Blob::copy(alloc, b"abc")?);
    let events = vec![in alloc; Event::Open(conn), piece]?;
    let fails = vec![in alloc; 2]?;
    Ok(MemLink::new(alloc, events, fails, vec![in alloc; 5]?))
}

// What an event is, in a word.
fn word(event: Result<Event, Or<Failed>>) -> &'static str {
    match event {
        Ok(Event::Open(_)) => "open",
        Ok(Event::Piece(_, _)) => "piece",
        Ok(Event::Ready(_)) => "ready",
        Ok(Event::Gone(_)) => "gone",
        Ok(Event::Stop) => "stop",
        Err(_) => "failed",
    }
}

#[test]
fn events_and_sends(rt: HostRuntime) -> Result<(), Fail> {
    let conn = ConnNum::new(7).ok_or("a connection")?;
    let mut link = link(rt.alloc(), conn)?;
    for wanted in ["open", "failed", "piece"] {
        assert_eq!(rt; word(link.next()), wanted);
    }
    for wanted in [Sent::Sent(2), Sent::Gone, Sent::Sent(2)] {
        assert_eq!(rt; link.send(conn, b"ok", true), wanted);
    }
    assert_eq!(rt; word(link.next()), "stop");
    assert_eq!(rt; link.sent().len(), 2);
    Ok(())
}
