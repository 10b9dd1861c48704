//! The names of the rows: 30 bytes each, in 1,000 folders.

ghost use Rattle.std.specs.Prelude.{◌≡◌};

use std::alloc::Global;

/// How many folders there are.
const FOLDERS: u64 = 1_000;

// A prime number of steps, so that rows that come one after the other lie far apart.
const STRIDE: u64 = 7_919;

/// The place of this turn among so many, in the order of the names. All places come once, in no order.
pub fn place_at(turn: u64, places: u64) -> u64 {
    turn.wrapping_mul(STRIDE).checked_rem(places).unwrap_or(0)
}

fn push_number(bytes: &mut Vec<u8>, number: u64, units: &[u64]) -> Option<()> {
    for unit in units {
        let digit = number.checked_div(*unit).unwrap_or(0) % 10;
        bytes.push(b'0' + digit as u8).ok()?;
    }
    Some(())
}

/// The name of the row at this place among so many, as `folder-0123/picture-012345.jpg`.
pub fn name_at(alloc: Global, place: u64, rows: u64) -> Option<Vec<u8>> {
    let most = (rows / FOLDERS).max(1);
    let mut bytes = Vec::with_capacity(alloc, 30).ok()?;
    bytes.extend_from_slice(b"folder-").ok()?;
    push_number(&mut bytes, place.checked_div(most)?, &[1_000, 100, 10, 1])?;
    bytes.extend_from_slice(b"/picture-").ok()?;
    let units = [100_000, 10_000, 1_000, 100, 10, 1];
    push_number(&mut bytes, place.checked_rem(most)?, &units)?;
    bytes.extend_from_slice(b".jpg").ok()?;
    Some(bytes)
}
