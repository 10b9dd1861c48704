//! Why a request is refused.

ghost use Rattle.std.specs.Prelude.{◌≡◌};
ghost use Rattle.b2_types.specs.Fault.{plain, with_word, with_number};

use b2_base::{BucketNum, Text, VersionNum};
use rule_table::{CallName, FaultKind};

/// What a refusal says beside its kind.
#[derive(Drop)]
pub enum Detail {
    Nothing,
    /// The key of a field, or the name of a header.
    Word(Text),
    /// A revision, or the number of a part or of parts.
    Number(u64),
}

/// A refusal.
#[derive(Drop)]
pub struct Fault {
    pub kind: FaultKind,
    pub detail: Detail,
}

impl Fault {
    /// A refusal of a kind that says all.
    pub fn plain(kind: FaultKind) -> Fault
        ensures { result ≡ plain kind }
    {
        Fault {
            kind,
            detail: Detail::Nothing,
        }
    }

    /// A refusal that names a field or a header.
    pub fn with_word(kind: FaultKind, word: Text) -> Fault
        ensures { result ≡ with_word kind word }
    {
        Fault {
            kind,
            detail: Detail::Word(word),
        }
    }

    /// A refusal that tells a number.
    pub fn with_number(kind: FaultKind, number: u64) -> Fault
        ensures { result ≡ with_number kind number }
    {
        Fault {
            kind,
            detail: Detail::Number(number),
        }
    }
}

/// What the path of an upload names.
#[derive(Clone, Copy, Debug, PartialEq, Eq)]
pub enum Target {
    Nothing,
    Bucket(BucketNum),
    File(BucketNum, VersionNum),
}

/// A request whose fields, headers or path are amiss.
#[derive(Drop)]
pub struct BadCall {
    pub name: CallName,
    /// What the path of an upload names.
    pub target: Target,
    /// The bucket part of a download path.
    pub bucket: Option<Text>,
    pub fault: Fault,
}
