//! Connections: requests in pieces and in one piece, which of them stay, what is held while a reply
//! is pending, how many are open, and their ends.

ghost use Rattle.std.specs.Prelude.{◌≡◌, ◌≤◌, ◌+◌, length, OnSome, IfSome, MatchOption, IfOk};
ghost use Rattle.conn_talk.specs.Talk.{size_of};
ghost use Rattle.conn_table.specs.Table.{pending_at};
ghost use Rattle.edge_tests.specs.Sound.{IsSound};

use b2_base::{Blob, ConnNum, Or};
use conn_table::{Conns, MOST_HELD, TooMany};
use conn_talk::Pending;
use std::alloc::Global;
use std::test::Fail;

// Opens the connection, whether it is open or not; or as many are open as may be.
fn reopen(alloc: Global, conns: &mut Conns<()>, c: ConnNum) -> Option<bool>
    requires { IsSound conns.old }
    ensures { OnSome result (IsSound conns.new) }
{
    conns.gone(c);
    match conns.open(alloc, c) {
        Ok(()) => Some(true),
        Err(Or::Fault(TooMany)) => Some(false),
        Err(Or::Memory) => None,
    }
}

// A piece comes: how many acts it brings. On a connection that isn't open it brings none.
fn feed(alloc: Global, conns: &mut Conns<()>, c: ConnNum, piece: &[u8]) -> Option<usize>
    requires { IsSound conns.old }
    ensures { OnSome result (IsSound conns.new) }
{
    if !conns.is_open(c) {
        return Some(0);
    }
    let Ok(acts) = conns.piece(alloc, c, piece) else {
        return None;
    };
    Some(acts.len())
}

// The request is answered with five bytes, after which it may stay.
fn answer(alloc: Global, conns: &mut Conns<()>, c: ConnNum) -> Option<()>
    requires { IsSound conns.old }
    ensures { OnSome result (IsSound conns.new) }
{
    if !conns.is_open(c) {
        return None;
    }
    if conns.ready(c).is_some() {
        return None;
    }
    let Ok(text) = Blob::copy(alloc, b"reply") else {
        return None;
    };
    let reply = Pending {
        text,
        body: None,
        len: 0,
        sent: 0,
        stay: true,
    };
    conns.answer(c, reply);
    Some(())
}

// So many bytes are to be sent.
fn left(conns: &Conns<()>, c: ConnNum) -> Option<u64>
    ensures { IfSome result (λ n. MatchOption (pending_at conns.now c) ⊥
        (λ p. p.sent + n ≤ size_of p)) }
{
    let pending = conns.ready(c)?;
    let len = pending.text.get().len() as u64;
    if pending.sent > len {
        return None;
    }
    Some(len - pending.sent)
}

// The bytes of the reply are sent but so many: whether it ended.
fn send_but(conns: &mut Conns<()>, c: ConnNum, but: u64) -> Option<bool>
    requires { IsSound conns.old }
    ensures { OnSome result (IsSound conns.new) }
{
    let n = left(conns, c)?;
    let reply = conns.sent(c, n.saturating_sub(but));
    Some(reply.is_some())
}

// A connection of a new table on which these bytes came in two pieces: how many acts each brought,
// and how many bytes are kept then.
fn in_two(alloc: Global, bytes: &[u8], cut: usize) -> Option<(usize, usize, usize)>
    requires { cut ≤ length bytes.now }
{
    let mut conns = Conns::new(alloc);
    let c = ConnNum::new(7)?;
    reopen(alloc, &mut conns, c)?;
    let first = feed(alloc, &mut conns, c, &bytes[..cut])?;
    let second = feed(alloc, &mut conns, c, &bytes[cut..])?;
    Some((first, second, conns.kept(c)))
}

// The same byte by byte: how many acts they brought, and how many bytes are kept then.
fn byte_by_byte(alloc: Global, bytes: &[u8]) -> Option<(usize, usize)> {
    let mut conns = Conns::new(alloc);
    let c = ConnNum::new(7)?;
    reopen(alloc, &mut conns, c)?;
    let mut acts = 0usize;
    for byte in bytes.chunks(1) {
        acts = acts.saturating_add(feed(alloc, &mut conns, c, byte)?);
    }
    Some((acts, conns.kept(c)))
}

const HEAD: &str = "POST /b2api/v3/b2_authorize_account HTTP/1.1\r\nContent-Length: 5\r\n\
    Connection: keep-alive\r\n\r\n";

#[test]
fn requests_in_pieces(rt: HostRuntime) -> Result<(), Fail> {
    let alloc = rt.alloc();
    let text = format!(in alloc; "{HEAD}abcdenext")?;
    let bytes = text.as_bytes();
    let end = HEAD.len().saturating_add(5);
    for cut in 0..=bytes.len() {
        let (first, second) = if cut < end { (0, 1) } else { (1, 0) };
        // The four bytes after the request are held.
        let want = Some((first, second, 4));
        assert_eq!(rt; in_two(alloc, bytes, cut), want, "{cut}");
    }
    assert_eq!(rt; byte_by_byte(alloc, bytes), Some((1, 4)));
    Ok(())
}

// How many of the requests are answered that these bytes bring at once.
fn answered(alloc: Global, bytes: &[u8]) -> Option<u32> {
    let mut conns = Conns::new(alloc);
    let c = ConnNum::new(7)?;
    reopen(alloc, &mut conns, c)?;
    let mut acts = feed(alloc, &mut conns, c, bytes)?;
    let mut count = 0u32;
    'requests: for _ in 0..9 {
        if acts == 0 {
            return Some(count);
        }
        count = count.wrapping_add(1);
        answer(alloc, &mut conns, c)?;
        send_but(&mut conns, c, 0)?;
        // What was held is the next request's. It brings nothing where the connection closed.
        acts = feed(alloc, &mut conns, c, &[])?;
    }
    None
}

#[test]
fn requests_in_one_piece(rt: HostRuntime) -> Result<(), Fail> {
    let alloc = rt.alloc();
    for (fields, stays) in [
        ("", false),
        ("Connection: keep-alive\r\n", true),
        ("CONNECTION: Keep-ALIVE\r\n", true),
        ("Connection: upgrade,\t keep-alive \r\n", true),
        ("Connection: upgrade\r\nConnection: keep-alive\r\n", true),
        ("Connection: keep-alives\r\n", false),
        ("Connection: close\r\n", false),
        ("Connection: keep-alive, close\r\n", false),
        ("Connection: CLOSE, Keep-Alive\r\n", false),
        ("Connection: keep-alive\r\nConnection: Close\r\n", false),
    ] {
        let one = format!(in alloc; "GET /b2api/v3/b2_authorize_account HTTP/1.1\r\n{fields}\r\n")?;
        let two = format!(in alloc; "{one}{one}")?;
        let three = format!(in alloc; "{two}{one}")?;
        let (second, third) = if stays {
            (Some(2), Some(3))
        } else {
            (Some(1), Some(1))
        };
        assert_eq!(rt; answered(alloc, one.as_bytes()), Some(1), "{fields}");
        assert_eq!(rt; answered(alloc, two.as_bytes()), second, "{fields}");
        assert_eq!(rt; answered(alloc, three.as_bytes()), third, "{fields}");
    }
    Ok(())
}

// How many of the requests are answered that come one after the other, each once the one before it
// is answered.
fn answered_in_turn(alloc: Global, request: &[u8]) -> Option<u32> {
    let mut conns = Conns::new(alloc);
    let c = ConnNum::new(7)?;
    reopen(alloc, &mut conns, c)?;
    let mut count = 0u32;
    'requests: for _ in 0..1_001 {
        // The connection is closed with the last reply.
        if feed(alloc, &mut conns, c, request)? == 0 {
            return Some(count);
        }
        count = count.wrapping_add(1);
        answer(alloc, &mut conns, c)?;
        send_but(&mut conns, c, 0)?;
    }
    None
}

#[test]
fn thousandth_request(rt: HostRuntime) -> Result<(), Fail> {
    let alloc = rt.alloc();
    let request = format!(in alloc; "{HEAD}abcde")?;
    assert_eq!(rt; answered_in_turn(alloc, request.as_bytes()), Some(1_000));
    Ok(())
}

// The text, and so many bytes after it.
fn with_more(alloc: Global, text: &str, more: usize) -> Option<Vec<u8>> {
    let mut bytes = text.as_bytes().to_vec(alloc).ok()?;
    for _ in 0..more {
        bytes.push(b'x').ok()?;
    }
    Some(bytes)
}

// So many bytes come behind a request that stays, in its piece, and so many while its reply is
// pending: how many are held then, and whether the connection stays open.
fn held(alloc: Global, behind: usize, later: usize) -> Option<(usize, bool)> {
    let mut conns = Conns::new(alloc);
    let c = ConnNum::new(7)?;
    reopen(alloc, &mut conns, c)?;
    let first = with_more(alloc, HEAD, 5usize.saturating_add(behind))?;
    let second = with_more(alloc, "", later)?;
    feed(alloc, &mut conns, c, &first)?;
    answer(alloc, &mut conns, c)?;
    feed(alloc, &mut conns, c, &second)?;
    let kept = conns.kept(c);
    send_but(&mut conns, c, 0)?;
    Some((kept, conns.is_open(c)))
}

#[test]
fn bytes_behind_a_request(rt: HostRuntime) -> Result<(), Fail> {
    let alloc = rt.alloc();
    for (behind, later, want) in [
        (0, 0, (0, true)),
        (3, 4, (7, true)),
        (MOST_HELD, 0, (MOST_HELD, true)),
        (0, MOST_HELD, (MOST_HELD, true)),
        (1, MOST_HELD - 1, (MOST_HELD, true)),
        (MOST_HELD + 1, 0, (0, false)),
        (0, MOST_HELD + 1, (0, false)),
        (MOST_HELD, 1, (0, false)),
        (1, MOST_HELD, (0, false)),
        (MOST_HELD + 1, 3, (0, false)),
    ] {
        assert_eq!(rt; held(alloc, behind, later), Some(want), "{behind} {later}");
    }
    Ok(())
}

// How many of so many connections open, where none is closed before the last.
fn opened(alloc: Global, conns: &mut Conns<()>, count: u32) -> Option<u32>
    requires { IsSound conns.old }
    ensures { OnSome result (IsSound conns.new) }
{
    let mut open = 0u32;
    for number in 0..count {
        if reopen(alloc, conns, ConnNum::new(number)?)? {
            open = open.wrapping_add(1);
        }
    }
    Some(open)
}

#[test]
fn many_connections(rt: HostRuntime) -> Result<(), Fail> {
    let alloc = rt.alloc();
    for (count, open) in [(1, 1), (32, 32), (33, 32), (40, 32)] {
        let mut conns = Conns::new(alloc);
        assert_eq!(rt; opened(alloc, &mut conns, count), Some(open), "{count}");
        let first = ConnNum::new(0).ok_or("a connection")?;
        assert_eq!(rt; conns.is_open(first), true);
        let last = ConnNum::new(39).ok_or("a connection")?;
        assert_eq!(rt; conns.is_open(last), false);
        // One that isn't open has nothing, and takes nothing.
        assert_eq!(rt; conns.ready(last).is_none(), true);
        assert_eq!(rt; conns.kept(last), 0);
        assert_eq!(rt; conns.gone(last).is_none(), true);
    }
    Ok(())
}

// The pieces of a request, and one after it.
fn piece_at(step: u32) -> &'static [u8] {
    match step {
        0 => b"POST /b2api/v3/b2_authorize_acc",
        1 => b"ount HTTP/1.1\r\nConnection: keep-alive\r\nContent-Length: 5\r\n\r\nab",
        2 => b"cde",
        _ => b"GET",
    }
}

// The steps of a request, from its first byte to the bytes after it.
fn step(alloc: Global, conns: &mut Conns<()>, c: ConnNum, number: u32) -> Option<()>
    requires { IsSound conns.old }
    ensures { OnSome result (IsSound conns.new) }
{
    if number == 3 {
        answer(alloc, conns, c)?;
        return Some(());
    }
    if number == 4 {
        send_but(conns, c, 1)?;
        return Some(());
    }
    feed(alloc, conns, c, piece_at(number))?;
    Some(())
}

// A connection is lost after so many steps: whether something was still to be sent, how many bytes
// were kept, and how many acts a request brings on the next connection of its number.
fn lost_after(alloc: Global, steps: u32) -> Option<(bool, usize, usize)> {
    let mut conns = Conns::new(alloc);
    let c = ConnNum::new(7)?;
    reopen(alloc, &mut conns, c)?;
    for number in 0..steps {
        step(alloc, &mut conns, c, number)?;
    }
    let kept = conns.kept(c);
    let pending = conns.ready(c).is_some();
    reopen(alloc, &mut conns, c)?;
    let whole = b"GET /b2api/v3/b2_authorize_account HTTP/1.1\r\n\r\n";
    let acts = feed(alloc, &mut conns, c, whole)?;
    Some((pending, kept, acts))
}

#[test]
fn lost_connections(rt: HostRuntime) -> Result<(), Fail> {
    for (steps, pending, kept) in [
        (0, false, 0),
        (1, false, 31),
        (2, false, 2),
        (3, false, 0),
        (4, true, 0),
        (5, true, 0),
        (6, true, 3),
    ] {
        let want = Some((pending, kept, 1));
        assert_eq!(rt; lost_after(rt.alloc(), steps), want, "{steps}");
    }
    Ok(())
}
