//! The steps of a lifecycle pass. The moments of the state stay as they were until its end.

ghost use Rattle.std.specs.Prelude.{◌≡◌, ◌==◌, ◌≤◌, ◌/◌, IfOk, IsSome};
ghost use Rattle.b2_base.specs.declared.numbers.TheConstants.{LAST_VERSION};
ghost use Rattle.b2_model.specs.Kinds.{day};
ghost use Rattle.b2_model.specs.Pass.{without_old_grants};
ghost use Rattle.b2_model.specs.Rows.{version_at};
ghost use Rattle.b2_model.specs.State.{bucket_at};
ghost use Rattle.b2_model.specs.Version.{marker, with_version, without_version};

use crate::made::{marker_of, with_version};
use crate::state::Core;
use b2_base::{BucketNum, Memory, Moment, VersionNum};
use b2_types::{Version, VersionId};
use name_rules::FileName;
use std::alloc::Global;

/// The milliseconds of a day.
const DAY: u64 = 86_400_000;

impl Core {
    /// Takes away the version, where it stands.
    pub fn take_version(&mut self, alloc: Global, id: VersionId) -> Option<Version>
        ensures version { result ≡ version_at self.old id.bucket id.num }
        ensures state { self.new ≡ without_version id self.old }
    {
        self.parts.versions.take(alloc, id.bucket, id.num)
    }

    /// The state with a marker of the next number, which hides the name.
    pub fn hide_name(
        self,
        alloc: Global,
        t: Moment,
        bucket: BucketNum,
        name: FileName,
    ) -> Result<Core, Memory>
        requires stands { IsSome (bucket_at self bucket) }
        requires left { self.next_version ≤ LAST_VERSION }
        ensures { IfOk result (λ core. core
            ≡ with_version (marker bucket self.next_version name t) self) }
    {
        let before = self.parts;
        let (now, kept) = (before.now, before.kept);
        let num = VersionNum::new(before.next_version).unwrap();
        let version = marker_of(alloc, t, VersionId { bucket, num }, name)?;
        let mut parts = with_version(alloc, before, t, version)?;
        parts.now = now;
        parts.kept = kept;
        Ok(Core { parts })
    }

    /// Ends a pass at the moment, whose day has its pass now. Tokens that ended a day ago or more
    /// are forgotten, but those of uploads under way.
    pub fn end_pass(&mut self, t: Moment)
        ensures { self.new ≡ record (without_old_grants t (record self.old { pass_day = t / day })) {
          now = t;
          kept = t;
        } }
    {
        self.parts.tokens.sweep(t);
        self.parts.pass_day = t.get() / DAY;
        self.parts.now = t;
        self.parts.kept = t;
    }
}
