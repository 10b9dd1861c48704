//! The plain types of the store: calls, answers, faults, records, versions, keys and buckets, and the tables
//! of calls and of faults.
#![tactic(auto)]

mod answer;
mod bucket;
mod call;
mod denial;
mod fault;
mod fault_table;
mod key;
mod key_ids;
mod kinds;
mod laws;
mod need_table;
mod record;
mod shown;
mod upload;
mod version;

pub use answer::{Answer, AnswerOf, ContentOf, Span};
pub use bucket::{Bucket, DefaultRetention, Rule};
pub use call::{
    Authorize, AuthorizeDownload, ByteRange, Call, CopyFile, CopyMetadata, CopyPart, CreateBucket,
    CreateKey, Credentials, DeleteBucket, DeleteKey, DeleteVersion, DownloadById, DownloadByName,
    FileCall, FinishCall, GetUploadUrl, HideFile, ListBuckets, ListFiles, ListKeys, ListParts,
    ListUnfinished, StartCall, UpdateBucket, UpdateHold, UpdateRetention,
};
pub use denial::Denial;
pub use fault::{BadCall, Detail, Fault, Target};
pub use fault_table::{code_of, message_of, reason_of, rule_of, status_of, text_of};
pub use key::{Flight, Grant, Key};
pub use key_ids::key_id;
pub use kinds::{Action, ApiVersion, Mark, Mode, Period, Retention, TokenKind};
pub use laws::{rows_and_fields, rules_and_kinds};
pub use need_table::{Need, Thing, need_of};
pub use record::{ChangeOf, NewVersion, Numbers, Record, RecordOf, VersionId};
pub use shown::{
    NextRow, RowKind, Shown, ShownAccount, ShownBucket, ShownCancelled, ShownDigest,
    ShownDownloadToken, ShownFile, ShownKey, ShownLimit, ShownLock, ShownName, ShownNewKey,
    ShownPart, ShownPartUrl, ShownUploadUrl,
};
pub use upload::{DigestRule, FileUpload, PartUpload, UploadCall};
pub use version::{Part, PartOf, Version, VersionOf};

#[cfg(test)]
mod tests;
