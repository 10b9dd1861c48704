//! Scripts that are wrong at each kind of line and past each limit, what a script gives, and what is
//! shown of sends.

use b2_base::{ConnNum, Or};
use event_script::{Script, ScriptFault, ScriptLink, read_script, write_sent};
use outside_traits::{Clock, Event, Link, MemSink, MemSource, Sent, Words};
use std::alloc::Global;
use std::test::Fail;

/// How the reading of a script ended.
#[derive(Clone, Copy, Debug, PartialEq, Eq)]
enum Ending {
    Read,
    Bad(u64),
    Fault,
    Memory,
}

fn end_of(alloc: Global, bytes: Vec<u8>, fails: Vec<u64>) -> Ending {
    let mut source = MemSource::new(bytes, fails);
    match read_script(alloc, &mut source) {
        Ok(_) => Ending::Read,
        Err(Or::Memory) => Ending::Memory,
        Err(Or::Fault(ScriptFault::SourceFault)) => Ending::Fault,
        Err(Or::Fault(ScriptFault::BadLine(number))) => Ending::Bad(number),
    }
}

#[test]
fn wrong_lines(rt: HostRuntime) -> Result<(), Fail> {
    let alloc = rt.alloc();
    for (text, number) in [
        ("", 1),
        ("stop", 1),
        ("stop\r\n", 1),
        ("at 5\nat 05\nstop\n", 2),
        ("at 18446744073709551616\nstop\n", 1),
        ("word 000000000000000A\nstop\n", 1),
        ("word 1\nstop\n", 1),
        ("open 1\nopne 1\nstop\n", 2),
        ("open 4294967296\nstop\n", 1),
        ("open\nstop\n", 1),
        ("piece 1 \nstop\n", 1),
        ("piece 1 0a\npiece 1 0A\nstop\n", 2),
        ("piece 1 0\nstop\n", 1),
        ("piece  1 0a\nstop\n", 1),
        ("line 1 \nline 1\nstop\n", 2),
        ("line 01 a\nstop\n", 1),
        ("ready 1\nready 1 \nstop\n", 2),
        ("gone 1\ngone -1\nstop\n", 2),
        ("open 1\n\nstop\n", 2),
        ("open 1\n", 2),
        ("stop\nstop\n", 2),
        ("stop\n\n", 2),
        ("stop\nx", 2),
    ] {
        let bytes = text.as_bytes().to_vec(alloc)?;
        assert_eq!(rt;
            end_of(alloc, bytes, Vec::new(alloc)),
            Ending::Bad(number),
            "{text:?}"
        );
    }
    Ok(())
}

// The unit so many times, between a front and an end.
fn repeated(
    alloc: Global,
    front: &str,
    unit: &str,
    count: u32,
    end: &str,
) -> Result<Vec<u8>, Fail> {
    let mut bytes = front.as_bytes().to_vec(alloc)?;
    for _ in 0..count {
        bytes.extend_from_slice(unit.as_bytes())?;
    }
    bytes.extend_from_slice(end.as_bytes())?;
    Ok(bytes)
}

#[test]
fn limits(rt: HostRuntime) -> Result<(), Fail> {
    let alloc = rt.alloc();
    for (front, unit, count, want) in [
        (
            "at 18446744073709551615\nopen 4294967295",
            "",
            0,
            Ending::Read,
        ),
        ("piece 1 ", "0a", 65_536, Ending::Read),
        ("piece 1 ", "0a", 65_537, Ending::Bad(1)),
        ("line 1 ", "x", 65_534, Ending::Read),
        ("line 1 ", "x", 65_535, Ending::Bad(1)),
        ("ready 1", "\nready 2", 16_383, Ending::Read),
        ("ready 1", "\nready 2", 16_384, Ending::Bad(16_385)),
    ] {
        let bytes = repeated(alloc, front, unit, count, "\nstop\n")?;
        let read = end_of(alloc, bytes, Vec::new(alloc));
        assert_eq!(rt; read, want, "{front} {count}");
    }
    Ok(())
}

#[test]
fn source_fault(rt: HostRuntime) -> Result<(), Fail> {
    let alloc = rt.alloc();
    for call in [1, 2] {
        let bytes = b"opne 1\nstop\n".as_slice().to_vec(alloc)?;
        let fails = vec![in alloc; call]?;
        assert_eq!(rt; end_of(alloc, bytes, fails), Ending::Fault, "{call}");
    }
    Ok(())
}

const SCRIPT: &str = "open 7\nat 5\nword 00000000000000ff\npiece 7 0a0b\nline 7 ab\nready 7\n\
    at 3\nword 0000000000000001\ngone 7\nstop\n";

fn script(alloc: Global) -> Result<Script, Fail> {
    let mut source = MemSource::new(SCRIPT.as_bytes().to_vec(alloc)?, Vec::new(alloc));
    let Ok(script) = read_script(alloc, &mut source) else {
        return Err("a script".into());
    };
    Ok(script)
}

// An event's first letter, its connection and its number of bytes.
fn plain(event: &Event) -> (char, u32, usize) {
    match event {
        Event::Open(conn) => ('o', conn.get(), 0),
        Event::Piece(conn, bytes) => ('p', conn.get(), bytes.get().len()),
        Event::Ready(conn) => ('r', conn.get(), 0),
        Event::Gone(conn) => ('g', conn.get(), 0),
        Event::Stop => ('s', 0, 0),
    }
}

fn next_plain(link: &mut ScriptLink) -> (char, u32, usize) {
    match link.next() {
        Ok(event) => plain(&event),
        Err(_) => ('f', 0, 0),
    }
}

#[test]
fn events(rt: HostRuntime) -> Result<(), Fail> {
    let alloc = rt.alloc();
    let script = script(alloc)?;
    let mut link = script.link(alloc)?;
    let mut clock = script.clock(alloc)?;
    for (reading, event) in [
        (0, ('o', 7, 0)),
        (5, ('p', 7, 2)),
        (5, ('p', 7, 4)),
        (5, ('r', 7, 0)),
        (3, ('g', 7, 0)),
        (3, ('s', 0, 0)),
    ] {
        assert_eq!(rt; clock.now(), reading);
        assert_eq!(rt; next_plain(&mut link), event);
    }
    let mut words = script.words(alloc)?;
    for word in [255, 1, 0] {
        assert_eq!(rt; words.next(), word);
    }
    Ok(())
}

#[test]
fn shown_sends(rt: HostRuntime) -> Result<(), Fail> {
    let alloc = rt.alloc();
    let conn = ConnNum::new(12).ok_or("a connection")?;
    let mut link = script(alloc)?.link(alloc)?;
    for (bytes, last) in [("ab", false), ("", false), ("a\nb", true), ("", true)] {
        let sent = link.send(conn, bytes.as_bytes(), last);
        assert_eq!(rt; sent, Sent::Sent(bytes.len()));
    }
    let whole = "sent 12 2\nab\nsent 12 3\na\nb\nclose 12\nclose 12\n";
    for (call, written) in [(100, whole), (1, ""), (9, "sent 12 2\nab\nsent ")] {
        let mut sink = MemSink::new(alloc, vec![in alloc; call]?);
        let done = write_sent(&link, &mut sink);
        assert_eq!(rt; done.is_ok(), call == 100);
        assert_eq!(rt; sink.bytes(), written.as_bytes());
    }
    Ok(())
}
