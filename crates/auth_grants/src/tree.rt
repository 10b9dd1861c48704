//! Tokens by their serials.

ghost use Rattle.std.specs.Prelude.{◌≡◌, filter};
ghost use Rattle.std.specs.Option.{option_copied};
ghost use Rattle.std.specs.Ordering.{nat_cmp};
ghost use Rattle.std.specs.BTreeMap.{IsOrdered};
ghost use Rattle.std.specs.Map.{keys_of, values_of};
ghost use Rattle.auth_grants.specs.Tokens.{AreBySerial, held_in, with_flight_in, is_kept};

use crate::held::Held;
use crate::text::serial_in;
use b2_base::{ConnNum, Moment};
use std::collections::BTreeMap;

/// How long after its end a token is forgotten, in milliseconds.
const DAY: u64 = 86_400_000;

/// The token of this text.
pub(crate) fn held_under<'a>(held: &'a BTreeMap<u64, Held>, text: &[u8]) -> Option<&'a Held>
    requires { AreBySerial held.now.entries }
    ensures { option_copied result ≡ held_in (values_of held.now.entries) text.now }
{
    let Some(serial) = serial_in(text) else {
        return None;
    };
    let Some(found) = held.get(&serial) else {
        return None;
    };
    if found.grant.text.get().as_bytes() == text {
        Some(found)
    } else {
        None
    }
}

/// Sets the upload on the token of this text, where there is one.
pub(crate) fn set_flight(held: &mut BTreeMap<u64, Held>, text: &[u8], flight: Option<ConnNum>)
    requires { AreBySerial held.old.entries }
    ensures set { values_of held.new.entries
        ≡ with_flight_in text.now flight (values_of held.old.entries) }
    ensures by_serial { AreBySerial held.new.entries }
    ensures same_serials { keys_of held.new.entries ≡ keys_of held.old.entries }
{
    if held_under(held, text).is_none() {
        return;
    }
    let Some(serial) = serial_in(text) else {
        return;
    };
    if let Some(found) = held.get_mut(&serial) {
        found.flight = flight;
    }
}

fn is_kept(held: &Held, t: Moment) -> bool
    ensures { result ≡ is_kept t held.now }
{
    let is_old = held.grant.end.get() + DAY <= t.get();
    !(held.flight.is_none() & is_old)
}

/// Forgets the tokens that ended a day ago or more, but those of uploads under way.
pub(crate) fn forget(held: &mut BTreeMap<u64, Held>, t: Moment)
    ensures kept { held.new.entries ≡ filter (λ e. is_kept t e.1) held.old.entries }
    ensures ordered { IsOrdered nat_cmp held.new }
{
    held.retain(|_, held| is_kept(held, t));
}
