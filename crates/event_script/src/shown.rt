//! What is shown of what was sent.

ghost use Rattle.std.specs.Prelude.{◌≡◌, ℕ, List, OnOk, OnErr, decimal};
ghost use Rattle.std.specs.List.{flat_map};
ghost use Rattle.std.specs.Io.KnownBytes.{Appends};
ghost use Rattle.outside_traits.specs.Bytes.{AppendsFront};
ghost use Rattle.outside_traits.specs.Causes.{HasCause};
ghost use Rattle.outside_traits.specs.Memory.{link_sent};
ghost use Rattle.event_script.specs.Shown.{shown_bytes, shown_end, shown, output_of};

use crate::script::ScriptLink;
use itoa::Buffer;
use outside_traits::{Failed, SentPiece, Sink, write_all};

// Writes the parts, one behind the other.
fn write_parts<K: Sink>(out: &mut K, parts: &[&[u8]]) -> Result<(), Failed>
    ensures ok { OnOk result (Appends (K.contents out.old) (K.contents out.new)
        (flat_map (λ part. part.now) parts.now)) }
    ensures err { OnErr result (AppendsFront (K.contents out.old) (K.contents out.new)
        (flat_map (λ part. part.now) parts.now)) }
    ensures cause { HasCause (K.faults out.old) (K.faults out.new) result }
{
    'parts: for part in parts {
        write_all(out, part)?;
    }
    Ok(())
}

fn show_bytes<K: Sink>(out: &mut K, conn: u32, bytes: &[u8]) -> Result<(), Failed>
    ensures ok { OnOk result (Appends (K.contents out.old) (K.contents out.new)
        (shown_bytes conn bytes.now)) }
    ensures err { OnErr result (AppendsFront (K.contents out.old) (K.contents out.new)
        (shown_bytes conn bytes.now)) }
    ensures cause { HasCause (K.faults out.old) (K.faults out.new) result }
{
    if bytes.is_empty() {
        return Ok(());
    }
    let mut conn_digits = Buffer::new();
    let mut count_digits = Buffer::new();
    let conn = conn_digits.format(conn).as_bytes();
    let count = count_digits.format(bytes.len()).as_bytes();
    write_parts(out, &[b"sent ", conn, b" ", count, b"\n", bytes, b"\n"])?;
    Ok(())
}

fn show_end<K: Sink>(out: &mut K, conn: u32, last: bool) -> Result<(), Failed>
    ensures ok { OnOk result (Appends (K.contents out.old) (K.contents out.new)
        (shown_end conn last)) }
    ensures err { OnErr result (AppendsFront (K.contents out.old) (K.contents out.new)
        (shown_end conn last)) }
    ensures cause { HasCause (K.faults out.old) (K.faults out.new) result }
{
    if !last {
        return Ok(());
    }
    let mut conn_digits = Buffer::new();
    let conn = conn_digits.format(conn).as_bytes();
    write_parts(out, &[b"close ", conn, b"\n"])?;
    Ok(())
}

fn show<K: Sink>(out: &mut K, send: &SentPiece) -> Result<(), Failed>
    ensures ok { OnOk result (Appends (K.contents out.old) (K.contents out.new)
        (shown send.now)) }
    ensures err { OnErr result (AppendsFront (K.contents out.old) (K.contents out.new)
        (shown send.now)) }
    ensures cause { HasCause (K.faults out.old) (K.faults out.new) result }
{
    let conn = send.conn.get();
    show_bytes(out, conn, send.bytes.get())?;
    show_end(out, conn, send.last)?;
    Ok(())
}

/// Writes what was sent on the link. At an `Err` the sink took a front of it.
pub fn write_sent<K: Sink>(link: &ScriptLink, out: &mut K) -> Result<(), Failed>
    ensures ok { OnOk result (Appends (K.contents out.old) (K.contents out.new)
        (output_of (link_sent link.now))) }
    ensures err { OnErr result (AppendsFront (K.contents out.old) (K.contents out.new)
        (output_of (link_sent link.now))) }
    ensures cause { HasCause (K.faults out.old) (K.faults out.new) result }
{
    'sends: for send in link.sent() {
        show(out, send)?;
    }
    Ok(())
}
