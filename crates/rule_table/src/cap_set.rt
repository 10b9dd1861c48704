//! Sets of capabilities.

ghost use Rattle.std.specs.Prelude.{◌≡◌, ◌↔◌, ◌⊎◌, IsTrue};
ghost use Rattle.rule_table.specs.declared.cap.Cap.{Cap as TheCap};
ghost use Rattle.rule_table.specs.Cap.{cap_order};
ghost use Rattle.rule_table.specs.CapSet.{HasCap, IsWithin, has, set_of};

use crate::cap::{CAPS, Cap};
use crate::placed::Placed;

/// Which capabilities a key has.
#[derive(Clone, Copy, Debug, PartialEq, Eq)]
pub struct CapSet {
    // A flag for each place of a capability.
    flags: [bool; CAPS],
}

impl CapSet {
    /// The empty set.
    pub fn none() -> CapSet
        ensures { (c : TheCap) → HasCap result c → ⊥ }
    {
        CapSet {
            flags: [false; CAPS],
        }
    }

    /// All capabilities.
    pub fn all() -> CapSet
        ensures { result ≡ set_of cap_order }
    {
        CapSet {
            flags: [true; CAPS],
        }
    }

    /// Whether the capability is in the set.
    pub fn has(&self, c: Cap) -> bool
        ensures flag { IsTrue result ↔ HasCap self.now c }
        ensures test { result ≡ has self.now c }
    {
        self.flags[c.place()]
    }

    /// The set and the capability.
    pub fn with(self, c: Cap) -> CapSet
        ensures { (d : TheCap) → HasCap result d ↔ (HasCap self d ⊎ (d ≡ c)) }
    {
        let mut flags = self.flags;
        flags[c.place()] = true;
        CapSet { flags }
    }

    /// Whether each of its capabilities is in the other set.
    pub fn subset(&self, of: &CapSet) -> bool
        ensures { IsTrue result ↔ ((c : TheCap) → HasCap self.now c → HasCap of.now c) }
    {
        is_within(&self.flags, &of.flags)
    }
}

// Whether each flag that is set is set in the others too.
fn is_within(flags: &[bool; CAPS], others: &[bool; CAPS]) -> bool
    ensures { IsTrue result ↔ IsWithin flags.now others.now }
{
    let mut at = 0;
    'flags: while at < CAPS {
        let is_lacking = flags[at] & !others[at];
        if is_lacking {
            return false;
        }
        at += 1;
    }
    true
}
