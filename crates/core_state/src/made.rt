//! Records that make a version.

ghost use Rattle.std.specs.Prelude.{◌≡◌, ◌==◌, ◌+◌, ◌∷◌, [], max, true, false, IfOk};
ghost use Rattle.std.specs.List.{list_any};
ghost use Rattle.b2_types.specs.declared.kinds.Action.TheVariants as action;
ghost use Rattle.b2_types.specs.declared.kinds.Mark.TheVariants as marks;
ghost use Rattle.b2_types.specs.declared.record.ChangeOf.TheVariants as change;
ghost use Rattle.b2_model.specs.Changes.{after_record};
ghost use Rattle.b2_model.specs.Lists.{put_by};
ghost use Rattle.b2_model.specs.Stored.{applies_change};
ghost use Rattle.b2_model.specs.Version.{marker, no_digest, version_from};
ghost use Rattle.sound_states.specs.Sound.{IsUploadMark};

use crate::parts::Parts;
use crate::state::Core;
use b2_base::{Extent, List, Memory, Moment, Text};
use b2_types::{Action, Mark, NewVersion, Version, VersionId};
use name_rules::FileName;
use new_versions::copy_info;
use std::alloc::Global;

/// What a marker has in place of a content type.
const MARKER_KIND: &str = "application/x-bz-hide-marker";

/// The version that an upload, a start or a joined large file makes.
pub fn version_of(
    alloc: Global,
    t: Moment,
    action: Action,
    content: List<Extent>,
    mark: Mark,
    digest: [u8; 20],
    new: NewVersion,
) -> Version
    ensures { result ≡ version_from t action content mark digest new }
{
    Version {
        bucket: new.bucket,
        num: new.num,
        name: new.name,
        action,
        stamp: t,
        kind: new.kind,
        info: new.info,
        content,
        mark,
        digest,
        retention: new.retention,
        hold: new.hold,
        parts: List::of(Vec::new(alloc)),
    }
}

/// The marker that hides the name.
pub fn marker_of(alloc: Global, t: Moment, id: VersionId, name: FileName) -> Result<Version, Memory>
    ensures { IfOk result (λ v. v ≡ marker id.bucket id.num name t) }
{
    Ok(Version {
        bucket: id.bucket,
        num: id.num,
        name,
        action: Action::Hide,
        stamp: t,
        kind: Text::copy(alloc, MARKER_KIND)?,
        info: copy_info(alloc, None)?,
        content: List::of(Vec::new(alloc)),
        mark: Mark::Marker,
        digest: [0; 20],
        retention: None,
        hold: false,
        parts: List::of(Vec::new(alloc)),
    })
}

/// The parts after the record of a new version.
pub(crate) fn with_version(
    alloc: Global,
    parts: Parts,
    t: Moment,
    version: Version,
) -> Result<Parts, Memory>
    requires free { list_any (λ v. v.num == version.num) parts.versions ≡ false }
    ensures { IfOk result (λ more. more ≡ record parts {
      now = t;
      kept = t;
      versions = put_by (λ v. v.num) version parts.versions;
      next_version = max parts.next_version (version.num + 1);
    }) }
{
    let next = parts.next_version.max(version.num.get() + 1);
    let versions = parts.versions.put(alloc, version)?;
    Ok(Parts {
        now: t,
        kept: t,
        next_version: next,
        versions,
        settings: parts.settings,
        pass_day: parts.pass_day,
        boot: parts.boot,
        next_bucket: parts.next_bucket,
        next_key: parts.next_key,
        buckets: parts.buckets,
        keys: parts.keys,
        tokens: parts.tokens,
        flights: parts.flights,
    })
}

impl Core {
    /// The state after the record of an upload.
    pub fn put_upload(
        self,
        alloc: Global,
        t: Moment,
        new: NewVersion,
        content: Extent,
        mark: Mark,
        digest: [u8; 20],
    ) -> Result<Core, Memory>
        requires mark { IsUploadMark mark }
        requires applies { applies_change self (change.Upload new content mark digest) ≡ true }
        ensures { IfOk result (λ core. core ≡ after_record self
            (record { at = t; change = change.Upload new content mark digest })) }
    {
        let mut pieces = Vec::new(alloc);
        pieces.push(content)?;
        let pieces = List::of(pieces);
        let version = version_of(alloc, t, Action::Upload, pieces, mark, digest, new);
        let parts = with_version(alloc, self.parts, t, version)?;
        Ok(Core { parts })
    }

    /// The state after the record of a marker.
    pub fn put_hide(
        self,
        alloc: Global,
        t: Moment,
        id: VersionId,
        name: FileName,
    ) -> Result<Core, Memory>
        requires applies { applies_change self (change.Hide id name) ≡ true }
        ensures { IfOk result (λ core. core ≡ after_record self
            (record { at = t; change = change.Hide id name })) }
    {
        let version = marker_of(alloc, t, id, name)?;
        let parts = with_version(alloc, self.parts, t, version)?;
        Ok(Core { parts })
    }

    /// The state after the record of a large file that begins.
    pub fn put_start(self, alloc: Global, t: Moment, new: NewVersion) -> Result<Core, Memory>
        requires applies { applies_change self (change.Start new) ≡ true }
        ensures { IfOk result (λ core. core ≡ after_record self
            (record { at = t; change = change.Start new })) }
    {
        let pieces = List::of(Vec::new(alloc));
        let version = version_of(alloc, t, Action::Start, pieces, Mark::Large, [0; 20], new);
        let parts = with_version(alloc, self.parts, t, version)?;
        Ok(Core { parts })
    }

    /// The state after the record of a joined large file, whose content is to come.
    pub fn put_large(self, alloc: Global, t: Moment, new: NewVersion) -> Result<Core, Memory>
        requires applies { applies_change self (change.SnapLarge new) ≡ true }
        ensures { IfOk result (λ core. core ≡ after_record self
            (record { at = t; change = change.SnapLarge new })) }
    {
        let pieces = List::of(Vec::new(alloc));
        let version = version_of(alloc, t, Action::Upload, pieces, Mark::Large, [0; 20], new);
        let parts = with_version(alloc, self.parts, t, version)?;
        Ok(Core { parts })
    }
}
