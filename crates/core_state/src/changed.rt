//! Records that change a version.

ghost use Rattle.std.specs.Prelude.{◌≡◌, ◌==◌, true, false, IfOk};
ghost use Rattle.std.specs.List.{list_any};
ghost use Rattle.b2_types.specs.declared.record.ChangeOf.TheVariants as change;
ghost use Rattle.b2_model.specs.Changes.{after_record};
ghost use Rattle.b2_model.specs.Lists.{put_by};
ghost use Rattle.b2_model.specs.Stored.{applies_change};

use crate::parts::Parts;
use crate::state::Core;
use crate::taken::taken;
use b2_base::{Memory, Moment};
use b2_types::{Retention, Version, VersionId};
use std::alloc::Global;

/// The parts after the record that changed the version, which was taken out.
pub(crate) fn with_changed(
    alloc: Global,
    parts: Parts,
    t: Moment,
    version: Version,
) -> Result<Parts, Memory>
    requires free { list_any (λ v. v.num == version.num) parts.versions ≡ false }
    ensures { IfOk result (λ more. more ≡ record parts {
      now = t;
      kept = t;
      versions = put_by (λ v. v.num) version parts.versions;
    }) }
{
    let versions = parts.versions.put(alloc, version)?;
    Ok(Parts {
        now: t,
        kept: t,
        versions,
        settings: parts.settings,
        pass_day: parts.pass_day,
        boot: parts.boot,
        next_bucket: parts.next_bucket,
        next_key: parts.next_key,
        next_version: parts.next_version,
        buckets: parts.buckets,
        keys: parts.keys,
        tokens: parts.tokens,
        flights: parts.flights,
    })
}

impl Core {
    /// The state after a record of another retention.
    pub fn put_retention(
        self,
        alloc: Global,
        t: Moment,
        id: VersionId,
        retention: Option<Retention>,
    ) -> Result<Core, Memory>
        requires applies { applies_change self (change.Retain id retention) ≡ true }
        ensures { IfOk result (λ core. core ≡ after_record self
            (record { at = t; change = change.Retain id retention })) }
    {
        let mut parts = self.parts;
        let mut version = taken(alloc, &mut parts, id);
        version.retention = retention;
        let parts = with_changed(alloc, parts, t, version)?;
        Ok(Core { parts })
    }

    /// The state after a record that a hold is on or off.
    pub fn put_hold(
        self,
        alloc: Global,
        t: Moment,
        id: VersionId,
        hold: bool,
    ) -> Result<Core, Memory>
        requires applies { applies_change self (change.Hold id hold) ≡ true }
        ensures { IfOk result (λ core. core ≡ after_record self
            (record { at = t; change = change.Hold id hold })) }
    {
        let mut parts = self.parts;
        let mut version = taken(alloc, &mut parts, id);
        version.hold = hold;
        let parts = with_changed(alloc, parts, t, version)?;
        Ok(Core { parts })
    }
}
