//! Records that take a version away.

ghost use Rattle.std.specs.Prelude.{◌≡◌, ◌==◌, ◌&&◌, not, true, Some, IsSome, filter, find};
ghost use Rattle.b2_types.specs.declared.record.ChangeOf.TheVariants as change;
ghost use Rattle.b2_model.specs.Changes.{after_record};
ghost use Rattle.b2_model.specs.Rows.{version_at};
ghost use Rattle.b2_model.specs.Stored.{applies_change};

use crate::parts::Parts;
use crate::state::Core;
use b2_base::Moment;
use b2_types::{Version, VersionId};
use std::alloc::Global;

/// Takes out the version, which is there.
pub(crate) fn taken(alloc: Global, parts: &mut Parts, id: VersionId) -> Version
    requires there { IsSome (find (λ v. v.bucket == id.bucket && v.num == id.num) parts.old.versions) }
    ensures version { find (λ v. v.bucket == id.bucket && v.num == id.num) parts.old.versions ≡ Some result }
    ensures left { parts.new ≡ record parts.old {
      versions = filter (λ v. not (v.bucket == id.bucket && v.num == id.num)) parts.old.versions;
    } }
{
    parts.versions.take(alloc, id.bucket, id.num).unwrap()
}

impl Core {
    /// The state after the record of a version that is dropped, and the version, with the extents
    /// that it gives up.
    pub fn drop_version(mut self, alloc: Global, t: Moment, id: VersionId) -> (Core, Version)
        requires applies { applies_change self (change.VersionDrop id) ≡ true }
        ensures version { version_at self id.bucket id.num ≡ Some result.1 }
        ensures state { result.0 ≡ after_record self
            (record { at = t; change = change.VersionDrop id }) }
    {
        self.parts.now = t;
        self.parts.kept = t;
        let version = taken(alloc, &mut self.parts, id);
        (self, version)
    }

    /// The state after the record of a large file that is cancelled, and the file, with the extents
    /// of its parts.
    pub fn cancel(self, alloc: Global, t: Moment, id: VersionId) -> (Core, Version)
        requires applies { applies_change self (change.Cancel id) ≡ true }
        ensures version { version_at self id.bucket id.num ≡ Some result.1 }
        ensures state { result.0 ≡ after_record self
            (record { at = t; change = change.Cancel id }) }
    {
        let mut parts = self.parts;
        parts.now = t;
        parts.kept = t;
        let version = taken(alloc, &mut parts, id);
        (Core { parts }, version)
    }
}
