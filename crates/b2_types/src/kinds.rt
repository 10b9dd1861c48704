//! Small kinds that versions, keys and tokens have.

use b2_base::Moment;

/// What a row of the listing of versions is.
#[derive(Clone, Copy, Debug, PartialEq, Eq)]
pub enum Action {
    /// A file with content.
    Upload,
    /// A marker that hides the versions below it.
    Hide,
    /// A large file that was started and isn't finished.
    Start,
}

/// The two modes of Object Lock.
#[derive(Clone, Copy, Debug, PartialEq, Eq)]
pub enum Mode {
    Governance,
    Compliance,
}

/// How long a version is kept from deletion.
#[derive(Clone, Copy, Debug, PartialEq, Eq)]
pub struct Retention {
    pub mode: Mode,
    pub until: Moment,
}

/// How a default retention is counted.
#[derive(Clone, Copy, Debug, PartialEq, Eq)]
pub enum Period {
    /// 1 to 36,500 days.
    Days(u32),
    /// 1 to 100 years of 365 days.
    Years(u32),
}

/// What is known of a content's digest.
#[derive(Clone, Copy, Debug, PartialEq, Eq)]
pub enum Mark {
    /// The client gave the digest, and the content has it.
    Verified,
    /// The client gave none.
    Unverified,
    /// The content was joined from parts and has no digest of its own.
    Large,
    /// A marker, which has no content.
    Marker,
}

/// The version of the API under which a call is made. They differ in the calls on keys alone.
#[derive(Clone, Copy, Debug, PartialEq, Eq)]
pub enum ApiVersion {
    V3,
    V4,
}

/// What a token is for.
#[derive(Clone, Copy, Debug, PartialEq, Eq)]
pub enum TokenKind {
    Account,
    UploadUrl,
    PartUrl,
    Download,
}
