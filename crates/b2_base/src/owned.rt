//! Texts and bytes that own what they hold.

ghost use Rattle.std.specs.Prelude.{◌≡◌, ℕ, List};

use std::cmp::Ordering;
use std::marker::Model;

/// What holds bytes.
pub trait Holds: Drop {
    /// The bytes that clauses see it as.
    ghost bytes_of: { Self → List ℕ };

    /// The bytes that it holds.
    fn bytes(&self) -> &[u8]
        ensures { result.now ≡ bytes_of self.now };
}

impl Holds for String {
    ghost use Rattle.std.specs.Prelude.{string_bytes};

    ghost bytes_of = { λ s. string_bytes s };

    fn bytes(&self) -> &[u8] {
        self.as_str().as_bytes()
    }
}

impl Holds for Vec<u8> {
    ghost bytes_of = { λ v. v.items };

    fn bytes(&self) -> &[u8] {
        self
    }
}

/// What owns bytes, which clauses see as their list. It is ordered as its bytes are.
#[derive(Debug, Drop)]
pub struct Owned<H: Holds> {
    pub(crate) held: H,
}

impl<H: Holds> Model for Owned<H> {
    ghost use Rattle.std.specs.Prelude.{ℕ, List};
    ghost use Rattle.std.specs.Coded.{coded_list, coded_ℕ};

    ghost Value = { List ℕ };

    ghost coded = { coded_list coded_ℕ };

    ghost view = { λ o. H.bytes_of o.held };
}

impl<H: Holds> PartialEq for Owned<H> {
    ghost use Rattle.std.specs.Prelude.{bytes_eq};
    ghost use Rattle.std.specs.Cmp.{partial_equiv_from_equiv};
    ghost use Rattle.std.specs.Cmp.Lexicographic.{nat_list_eq_equiv};

    ghost eq = { bytes_eq };

    ghost laws = { partial_equiv_from_equiv nat_list_eq_equiv };

    fn eq(&self, other: &Self) -> bool {
        self.held.bytes() == other.held.bytes()
    }
}

impl<H: Holds> Eq for Owned<H> {
    ghost use Rattle.std.specs.Cmp.Lexicographic.{nat_list_eq_equiv};

    ghost laws = { nat_list_eq_equiv };
}

impl<H: Holds> PartialOrd for Owned<H> {
    ghost use Rattle.std.specs.Prelude.{Some};
    ghost use Rattle.std.specs.Ordering.{nat_cmp};
    ghost use Rattle.std.specs.Cmp.Lexicographic.{slice_cmp, texts_po};

    ghost partial_cmp = { λ x y. Some (slice_cmp nat_cmp x y) };

    ghost laws = { texts_po };

    fn partial_cmp(&self, other: &Self) -> Option<Ordering> {
        Some(self.cmp(other))
    }
}

impl<H: Holds> Ord for Owned<H> {
    ghost use Rattle.std.specs.Prelude.{refl};
    ghost use Rattle.std.specs.Ordering.{nat_cmp};
    ghost use Rattle.std.specs.Cmp.Lexicographic.{slice_cmp, nat_list_cmp_total, texts_ties};

    ghost cmp = { slice_cmp nat_cmp };

    ghost total = { nat_list_cmp_total };

    ghost matches_partial_cmp = { λ x y. refl };

    ghost matches_eq = { λ x y. texts_ties x y };

    fn cmp(&self, other: &Self) -> Ordering {
        self.held.bytes().cmp(other.held.bytes())
    }
}
