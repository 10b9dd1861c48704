//! The places of versions in listings.

use b2_base::{Blob, BucketNum, VersionNum};
use std::cmp::Ordering;

/// Where a version stands: its bucket, its name and its number. The bytes of the name need not be
/// those of a file's name, so that a listing may begin anywhere.
#[derive(Debug, Drop)]
pub struct Spot {
    pub bucket: BucketNum,
    pub name: Blob,
    pub num: VersionNum,
}

impl PartialEq for Spot {
    ghost use Rattle.std.specs.Cmp.{eq_by_cmp_equiv, partial_equiv_from_equiv};
    ghost use Rattle.version_index.specs.Rows.{is_spot};
    ghost use Rattle.version_index.specs.Order.{listing_total};

    ghost eq = { is_spot };

    ghost laws = { partial_equiv_from_equiv (eq_by_cmp_equiv listing_total) };

    fn eq(&self, other: &Self) -> bool {
        self.cmp(other).is_eq()
    }
}

impl Eq for Spot {
    ghost use Rattle.std.specs.Cmp.{eq_by_cmp_equiv};
    ghost use Rattle.version_index.specs.Order.{listing_total};

    ghost laws = { eq_by_cmp_equiv listing_total };
}

impl PartialOrd for Spot {
    ghost use Rattle.std.specs.Prelude.{Some, refl};
    ghost use Rattle.std.specs.Cmp.{po};
    ghost use Rattle.version_index.specs.Rows.{listing_cmp};
    ghost use Rattle.version_index.specs.Order.{listing_total};

    ghost partial_cmp = { λ x y. Some (listing_cmp x y) };

    ghost laws = { po listing_total (λ x y. refl) };

    fn partial_cmp(&self, other: &Self) -> Option<Ordering> {
        Some(self.cmp(other))
    }
}

impl Ord for Spot {
    ghost use Rattle.std.specs.Prelude.{refl};
    ghost use Rattle.version_index.specs.Rows.{listing_cmp};
    ghost use Rattle.version_index.specs.Order.{listing_total};

    ghost cmp = { listing_cmp };

    ghost total = { listing_total };

    ghost matches_partial_cmp = { λ x y. refl };

    ghost matches_eq = { λ x y. refl };

    fn cmp(&self, other: &Self) -> Ordering {
        match self.bucket.cmp(&other.bucket) {
            Ordering::Equal => match self.name.cmp(&other.name) {
                Ordering::Equal => other.num.cmp(&self.num),
                order => order,
            },
            order => order,
        }
    }
}
