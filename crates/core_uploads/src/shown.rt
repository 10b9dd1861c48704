//! Files as the answers to their uploads show them.

ghost use Rattle.std.specs.Prelude.{◌≡◌, ◌∷◌, [], Some, IfOk, IsSome};
ghost use Rattle.std.specs.Option.{option_copied};
ghost use Rattle.b2_base.specs.declared.extent.Extent.{Extent as TheExtent};
ghost use Rattle.rule_table.specs.declared.cap.Cap.TheVariants as caps;
ghost use Rattle.b2_types.specs.declared.kinds.Action.TheVariants as action;
ghost use Rattle.b2_types.specs.declared.version.VersionOf.{VersionOf};
ghost use Rattle.b2_model.specs.Shown.{if_may, may, shown_digest, shown_file};
ghost use Rattle.b2_model.specs.Version.{version_from};
ghost use Rattle.new_versions.specs.Decided.{extent_len};
ghost use Rattle.core_uploads.specs.Uploads.{version_in};

use b2_base::{Extent, List, Memory, Moment, Settings, Text};
use b2_types::{
    ChangeOf, Key, Mark, NewVersion, Record, Retention, RowKind, ShownDigest, ShownFile,
};
use rule_table::Cap;
use shown_values::may_read;
use std::alloc::Global;

fn digest_of(mark: Mark, digest: [u8; 20]) -> Option<ShownDigest>
    ensures { result ≡ shown_digest mark digest }
{
    match mark {
        Mark::Marker => None,
        Mark::Verified | Mark::Unverified | Mark::Large => Some(ShownDigest { mark, digest }),
    }
}

fn retention_of(key: Option<&Key>, retention: Option<Retention>) -> Option<Option<Retention>>
    ensures { result ≡ if_may (may (option_copied key.entry) caps.ReadFileRetentions) retention }
{
    if may_read(key, Cap::ReadFileRetentions) {
        Some(retention)
    } else {
        None
    }
}

fn hold_of(key: Option<&Key>, hold: bool) -> Option<bool>
    ensures { result ≡ if_may (may (option_copied key.entry) caps.ReadFileLegalHolds) hold }
{
    if may_read(key, Cap::ReadFileLegalHolds) {
        Some(hold)
    } else {
        None
    }
}

fn copy_pairs(alloc: Global, pairs: &[(Text, Text)]) -> Result<List<(Text, Text)>, Memory>
    ensures { IfOk result (λ ps. ps ≡ pairs.now) }
{
    let mut copies = Vec::new(alloc);
    for pair in pairs {
        let key = Text::copy(alloc, pair.0.get())?;
        let value = Text::copy(alloc, pair.1.get())?;
        copies.push((key, value))?;
    }
    Ok(List::of(copies))
}

// The version that an upload makes, as the answer to a call of this key shows it.
fn show_new(
    alloc: Global,
    settings: &Settings,
    key: Option<&Key>,
    t: Moment,
    new: &NewVersion,
    content: Extent,
    mark: Mark,
    digest: [u8; 20],
) -> Result<ShownFile, Memory>
    ensures { IfOk result (λ s. s
        ≡ shown_file extent_len settings.now (option_copied key.entry)
        (version_from t action.Upload (content ∷ []) mark digest new.now)) }
{
    let account = Text::copy(alloc, settings.account.get())?;
    let kind = Text::copy(alloc, new.kind.get())?;
    let info = copy_pairs(alloc, new.info.get())?;
    let name = Text::copy(alloc, new.name.get())?;
    Ok(ShownFile {
        account,
        action: RowKind::Upload,
        bucket: new.bucket,
        length: content.len,
        digest: digest_of(mark, digest),
        kind: Some(kind),
        num: new.num,
        info,
        name,
        retention: retention_of(key, new.retention),
        hold: hold_of(key, new.hold),
        stamp: t,
    })
}

/// The file of an upload's record as the answer to a call of this key shows it.
pub(crate) fn show_made(
    alloc: Global,
    settings: &Settings,
    key: Option<&Key>,
    record: &Record,
) -> Result<ShownFile, Memory>
    requires { IsSome (version_in record.now.at record.now.change) }
    ensures { IfOk result (λ s. (v : VersionOf TheExtent)
        → version_in record.now.at record.now.change ≡ Some v
        → s ≡ shown_file extent_len settings.now (option_copied key.entry) v) }
{
    match &record.change {
        ChangeOf::Upload(new, content, mark, digest) => {
            show_new(
                alloc, settings, key, record.at, new, *content, *mark, *digest,
            )
        }
        _ => unreachable!(),
    }
}
