//! What each call needs and names.

ghost use Rattle.std.specs.Prelude.{◌≡◌};
ghost use Rattle.b2_types.specs.Need.{need};

use crate::kinds::TokenKind;
use rule_table::{CallName, Cap};

/// What a call may name, which is judged against the account, buckets and prefix of a key.
#[derive(Clone, Copy, Debug, PartialEq, Eq)]
pub enum Thing {
    Account,
    Bucket,
    /// A bucket, where one is given.
    SomeBucket,
    /// A bucket by its name in a path.
    PathBucket,
    File,
    /// The file that a copy is made of.
    Source,
    Name,
    Prefix,
}

/// A row of the table of calls.
#[derive(Clone, Copy)]
pub struct Need {
    /// The kinds of tokens that it takes.
    pub tokens: &'static [TokenKind],
    /// The capabilities that it needs whatever its fields are.
    pub caps: &'static [Cap],
    pub things: &'static [Thing],
}

// A call takes the account's token, but for these.
fn tokens_of(name: CallName) -> &'static [TokenKind]
    ensures { result.now ≡ (need name).tokens }
{
    match name {
        CallName::AuthorizeAccount => &[],
        CallName::UploadFile => &[TokenKind::UploadUrl],
        CallName::UploadPart => &[TokenKind::PartUrl],
        CallName::DownloadFileByName => &[TokenKind::Account, TokenKind::Download],
        _ => &[TokenKind::Account],
    }
}

// A call needs the right to write files, but for these.
fn caps_of(name: CallName) -> &'static [Cap]
    ensures { result.now ≡ (need name).caps }
{
    match name {
        CallName::AuthorizeAccount => &[],
        CallName::CreateBucket | CallName::UpdateBucket => &[Cap::WriteBuckets],
        CallName::DeleteBucket => &[Cap::DeleteBuckets],
        CallName::ListBuckets => &[Cap::ListBuckets],
        CallName::CreateKey => &[Cap::WriteKeys],
        CallName::DeleteKey => &[Cap::DeleteKeys],
        CallName::ListKeys => &[Cap::ListKeys],
        CallName::ListUnfinishedLargeFiles | CallName::ListFileNames | CallName::ListFileVersions =>
            &[Cap::ListFiles],
        CallName::GetFileInfo | CallName::DownloadFileById | CallName::DownloadFileByName => {
            &[Cap::ReadFiles]
        }
        CallName::DeleteFileVersion => &[Cap::DeleteFiles],
        CallName::GetDownloadAuthorization => &[Cap::ShareFiles],
        CallName::UpdateFileRetention => &[Cap::WriteFileRetentions],
        CallName::UpdateFileLegalHold => &[Cap::WriteFileLegalHolds],
        CallName::CopyFile | CallName::CopyPart => &[Cap::WriteFiles, Cap::ReadFiles],
        _ => &[Cap::WriteFiles],
    }
}

// A call names a file by its id, but for these.
fn things_of(name: CallName) -> &'static [Thing]
    ensures { result.now ≡ (need name).things }
{
    match name {
        CallName::AuthorizeAccount | CallName::DeleteKey => &[],
        CallName::CreateBucket | CallName::ListKeys => &[Thing::Account],
        CallName::UpdateBucket | CallName::DeleteBucket => &[Thing::Account, Thing::Bucket],
        CallName::ListBuckets | CallName::CreateKey => &[Thing::Account, Thing::SomeBucket],
        CallName::GetUploadUrl => &[Thing::Bucket],
        CallName::UploadFile | CallName::StartLargeFile | CallName::HideFile => {
            &[Thing::Bucket, Thing::Name]
        }
        CallName::ListUnfinishedLargeFiles
        | CallName::ListFileNames
        | CallName::ListFileVersions
        | CallName::GetDownloadAuthorization => &[Thing::Bucket, Thing::Prefix],
        CallName::DownloadFileByName => &[Thing::PathBucket, Thing::Name],
        CallName::CopyFile => &[Thing::Source, Thing::Bucket, Thing::Name],
        CallName::CopyPart => &[Thing::Source, Thing::File],
        _ => &[Thing::File],
    }
}

/// What the call needs and names (the B2 reference, "Application keys").
pub fn need_of(name: CallName) -> Need
    ensures tokens { result.tokens.now ≡ (need name).tokens }
    ensures caps { result.caps.now ≡ (need name).caps }
    ensures things { result.things.now ≡ (need name).things }
{
    Need {
        tokens: tokens_of(name),
        caps: caps_of(name),
        things: things_of(name),
    }
}
