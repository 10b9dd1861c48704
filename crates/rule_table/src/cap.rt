//! Capabilities of keys, in the order of their table.

ghost use Rattle.std.specs.Prelude.{◌≡◌};
ghost use Rattle.rule_table.specs.Cap.{cap_names, cap_order};

use crate::placed::Placed;
use crate::table::Table;

/// How many capabilities there are.
pub const CAPS: usize = 26;

/// What a key lets its holder do. Names and order are those of the B2 reference.
#[derive(Clone, Copy, Debug, PartialEq, Eq)]
pub enum Cap {
    ListKeys,
    WriteKeys,
    DeleteKeys,
    ListAllBucketNames,
    ListBuckets,
    ReadBuckets,
    WriteBuckets,
    DeleteBuckets,
    ReadBucketRetentions,
    WriteBucketRetentions,
    ReadBucketEncryption,
    WriteBucketEncryption,
    ReadBucketReplications,
    WriteBucketReplications,
    ReadBucketNotifications,
    WriteBucketNotifications,
    ListFiles,
    ReadFiles,
    ShareFiles,
    WriteFiles,
    DeleteFiles,
    ReadFileLegalHolds,
    WriteFileLegalHolds,
    ReadFileRetentions,
    WriteFileRetentions,
    BypassGovernance,
}

impl Placed for Cap {
    ghost use Rattle.std.specs.Prelude.{slice_get};
    ghost use Rattle.rule_table.specs.Cap.{cap_order, cap_place, cap_there, cap_here};

    ghost place_of = { cap_place };

    ghost at_place = { λ i. slice_get cap_order i };

    ghost there = { cap_there };

    ghost here = { cap_here };

    fn place(&self) -> usize {
        *self as usize
    }

    fn at(place: usize) -> Option<Cap> {
        every_cap().get(place).copied()
    }
}

/// All capabilities, in the order of their table.
pub fn every_cap() -> [Cap; CAPS]
    ensures { result ≡ cap_order }
{
    [
        Cap::ListKeys,
        Cap::WriteKeys,
        Cap::DeleteKeys,
        Cap::ListAllBucketNames,
        Cap::ListBuckets,
        Cap::ReadBuckets,
        Cap::WriteBuckets,
        Cap::DeleteBuckets,
        Cap::ReadBucketRetentions,
        Cap::WriteBucketRetentions,
        Cap::ReadBucketEncryption,
        Cap::WriteBucketEncryption,
        Cap::ReadBucketReplications,
        Cap::WriteBucketReplications,
        Cap::ReadBucketNotifications,
        Cap::WriteBucketNotifications,
        Cap::ListFiles,
        Cap::ReadFiles,
        Cap::ShareFiles,
        Cap::WriteFiles,
        Cap::DeleteFiles,
        Cap::ReadFileLegalHolds,
        Cap::WriteFileLegalHolds,
        Cap::ReadFileRetentions,
        Cap::WriteFileRetentions,
        Cap::BypassGovernance,
    ]
}

/// The capabilities and their names.
pub fn caps() -> Table<Cap, CAPS>
    ensures { result ≡ cap_names }
{
    Table::new(&[
        "listKeys",
        "writeKeys",
        "deleteKeys",
        "listAllBucketNames",
        "listBuckets",
        "readBuckets",
        "writeBuckets",
        "deleteBuckets",
        "readBucketRetentions",
        "writeBucketRetentions",
        "readBucketEncryption",
        "writeBucketEncryption",
        "readBucketReplications",
        "writeBucketReplications",
        "readBucketNotifications",
        "writeBucketNotifications",
        "listFiles",
        "readFiles",
        "shareFiles",
        "writeFiles",
        "deleteFiles",
        "readFileLegalHolds",
        "writeFileLegalHolds",
        "readFileRetentions",
        "writeFileRetentions",
        "bypassGovernance",
    ])
}
