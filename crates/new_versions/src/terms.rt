//! What a version is made of.

ghost use Rattle.std.specs.Prelude.{◌≡◌, IfOk};
ghost use Rattle.new_versions.specs.Terms.{version_of};

use crate::copies::{copy_info, copy_name};
use crate::media::resolved_type;
use b2_base::{BucketNum, Memory, VersionNum};
use b2_types::{NewVersion, Retention};
use name_rules::{FileName, InfoPairs};
use std::alloc::Global;

/// What a version is made of, but for its number.
#[derive(Clone, Copy)]
pub struct VersionTerms<'a> {
    pub bucket: BucketNum,
    pub name: &'a FileName,
    /// `b2/x-auto` leaves the type to the store.
    pub kind: &'a str,
    /// None is no pairs.
    pub info: Option<&'a InfoPairs>,
    pub retention: Option<Retention>,
    pub hold: bool,
}

/// The version of this number, with its type resolved.
pub fn new_version(
    alloc: Global,
    num: VersionNum,
    of: &VersionTerms<'_>,
) -> Result<NewVersion, Memory>
    ensures { IfOk result (λ v. v ≡ version_of num of.now) }
{
    let kind = resolved_type(alloc, of.kind, of.name.get().as_bytes())?;
    Ok(NewVersion {
        bucket: of.bucket,
        num,
        name: copy_name(alloc, of.name)?,
        kind,
        info: copy_info(alloc, of.info)?,
        retention: of.retention,
        hold: of.hold,
    })
}
