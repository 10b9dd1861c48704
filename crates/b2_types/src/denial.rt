//! The rules of the policy and of Object Lock.

ghost use Rattle.std.specs.Prelude.{◌≡◌};
ghost use Rattle.b2_types.specs.Denied.{kind_of};

use rule_table::FaultKind;

/// The rule that a denial names; the first ten are the policy's, the others those of Object Lock.
#[derive(Clone, Copy, Debug, PartialEq, Eq)]
pub enum Denial {
    /// No token.
    P1,
    /// A token that is none, or a key or secret that is none.
    P2,
    /// A token of another kind, or for another path.
    P3,
    /// The token's key was deleted.
    P4,
    /// The token has ended.
    P5,
    /// The key has ended.
    P6,
    /// The key lacks a capability.
    P7,
    /// The account is another.
    P8,
    /// The bucket is another than those that the key is limited to.
    P9,
    /// The name is outside of the prefix that the key is limited to.
    P10,
    /// A legal hold.
    P11,
    /// Compliance.
    P12,
    /// Governance, and the bypass is not asked for.
    P13,
    /// Governance, and the key may not bypass it.
    P14,
}

impl Denial {
    /// The kind of fault that names the rule.
    pub fn kind(self) -> FaultKind
        ensures { result ≡ kind_of self }
    {
        match self {
            Denial::P1 => FaultKind::P1,
            Denial::P2 => FaultKind::P2,
            Denial::P3 => FaultKind::P3,
            Denial::P4 => FaultKind::P4,
            Denial::P5 => FaultKind::P5,
            Denial::P6 => FaultKind::P6,
            Denial::P7 => FaultKind::P7,
            Denial::P8 => FaultKind::P8,
            Denial::P9 => FaultKind::P9,
            Denial::P10 => FaultKind::P10,
            Denial::P11 => FaultKind::P11,
            Denial::P12 => FaultKind::P12,
            Denial::P13 => FaultKind::P13,
            Denial::P14 => FaultKind::P14,
        }
    }
}
