//! Workloads: their connections, their requests and their moments.

use event_script::{Script, ScriptClock, ScriptLink};
use outside_traits::{Clock, Event, Link, Words};
use std::alloc::Global;
use std::test::Fail;
use workload::make_workload;

fn workload_of(alloc: Global, seed: u64, n: u32) -> Option<Script> {
    if n < 1 || n > 100_000 {
        return None;
    }
    make_workload(alloc, seed, n).ok()
}

// How many of the next events are an Open, and how many of all come before Stop.
fn counts(link: &mut ScriptLink, most: u32) -> (u32, u32) {
    let mut opened = 0u32;
    for count in 0..most {
        match link.next() {
            Ok(Event::Open(_)) => opened = opened.wrapping_add(1),
            Ok(Event::Stop) | Err(_) => return (opened, count),
            Ok(_) => {}
        }
    }
    (opened, most)
}

#[test]
fn connections_of_workloads(rt: HostRuntime) -> Result<(), Fail> {
    for (n, opened, events) in [(1, 4, 12), (2, 5, 15), (50, 53, 159)] {
        let script = workload_of(rt.alloc(), 5, n).ok_or("a workload")?;
        let mut link = script.link(rt.alloc())?;
        assert_eq!(rt; counts(&mut link, 1_000), (opened, events), "{n}");
    }
    Ok(())
}

// The bytes of the piece after so many events.
fn piece_after(alloc: Global, link: &mut ScriptLink, events: u32) -> Option<Vec<u8>> {
    for _ in 0..events {
        link.next().ok()?;
    }
    match link.next() {
        Ok(Event::Piece(_, bytes)) => bytes.get().to_vec(alloc).ok(),
        _ => None,
    }
}

// Whether the piece after so many events of the workload begins and ends so.
fn is_piece(alloc: Global, seed: u64, events: u32, first: &str, last: &str) -> Option<bool> {
    let script = workload_of(alloc, seed, 1)?;
    let mut link = script.link(alloc).ok()?;
    let piece = piece_after(alloc, &mut link, events)?;
    Some(piece.starts_with(first.as_bytes()) & piece.ends_with(last.as_bytes()))
}

#[test]
fn requests_of_workloads(rt: HostRuntime) -> Result<(), Fail> {
    for (seed, events, first, last) in [
        (
            0,
            1,
            "GET /b2api/v3/b2_authorize_account HTTP/1.1\r\n",
            "\r\n\r\n",
        ),
        (
            0,
            4,
            "POST /b2api/v3/b2_create_bucket ",
            "\"bucketType\":\"allPrivate\"}",
        ),
        (
            0,
            7,
            "POST /b2api/v3/b2_get_upload_url ",
            "{\"bucketId\":\"000000000000000000000001\"}",
        ),
        (
            0,
            10,
            "POST /b2api/v3/b2_list_file_names ",
            "\"startFileName\":\"f951\"}",
        ),
        (
            1,
            10,
            "POST /b2api/v3/b2_hide_file ",
            "\"fileName\":\"f693\"}",
        ),
        (
            2,
            10,
            "POST /b2api/v3/b2_upload_file/000000000000000000000001 HTTP/1.1\r\nAuthorization: \
            3_00000001_0000000000000002_0000000000000003_0000000000000004\r\n\
            X-Bz-File-Name: f435\r\nContent-Type: text/plain\r\n\
            X-Bz-Content-Sha1: do_not_verify\r\nContent-Length: 1\r\n\r\n",
            "\r\n\r\n1",
        ),
    ] {
        assert_eq!(rt;
            is_piece(rt.alloc(), seed, events, first, last),
            Some(true),
            "{first}"
        );
    }
    Ok(())
}

fn reading_after(clock: &mut ScriptClock, count: u32) -> u64 {
    for _ in 0..count {
        clock.now();
    }
    clock.now()
}

#[test]
fn moments_and_words(rt: HostRuntime) -> Result<(), Fail> {
    let script = workload_of(rt.alloc(), 5, 3).ok_or("a workload")?;
    for (count, reading) in [(0, 0), (8, 0), (9, 1), (11, 1), (12, 2), (17, 3)] {
        let mut clock = script.clock(rt.alloc())?;
        assert_eq!(rt; reading_after(&mut clock, count), reading, "{count}");
    }
    let mut words = script.words(rt.alloc())?;
    for word in [1, 2, 3, 4, 0] {
        assert_eq!(rt; words.next(), word);
    }
    Ok(())
}
