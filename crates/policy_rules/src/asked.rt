//! Who asks, and what is asked.

use b2_base::BucketNum;
use b2_types::{Grant, Key, Need, VersionId};
use rule_table::Cap;

/// Who asks: the token that was given, its grant, and the grant's key.
#[derive(Clone, Copy)]
pub struct Asker<'a> {
    pub token: Option<&'a [u8]>,
    pub grant: Option<&'a Grant>,
    pub key: Option<&'a Key>,
}

/// The buckets of a list or a filter.
#[derive(Clone, Copy)]
pub enum SomeBucket<'a> {
    Each(&'a [BucketNum]),
    /// By number and by name, where they are given.
    Filter(Option<BucketNum>, Option<&'a [u8]>),
}

/// The fields of a call that name something.
#[derive(Clone, Copy)]
pub struct Fields<'a> {
    pub account: Option<&'a [u8]>,
    pub bucket: Option<BucketNum>,
    pub some_bucket: Option<SomeBucket<'a>>,
    /// The bucket part of a download path.
    pub path_bucket: Option<&'a [u8]>,
    pub file: Option<VersionId>,
    /// The file that a copy is made of.
    pub source: Option<VersionId>,
    pub name: Option<&'a [u8]>,
    pub prefix: Option<&'a [u8]>,
}

/// What is judged of a call or an upload.
#[derive(Clone, Copy)]
pub struct Asked<'a> {
    /// Its row of the table.
    pub need: Need,
    /// The capabilities that its fields need besides those of the row.
    pub more: &'a [Cap],
    pub fields: Fields<'a>,
}
