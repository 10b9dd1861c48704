//! What the policy looks up: an account without buckets and files.

ghost use Rattle.std.specs.Prelude.{◌≡◌, option_map};
ghost use Rattle.std.specs.Option.{option_copied};
ghost use Rattle.b2_model.specs.State.{bucket_at};
ghost use Rattle.b2_model.specs.Policy.{name_at};
ghost use Rattle.bench_decisions.specs.Known.{state_of};

use b2_base::{BucketNum, Text};
use b2_types::VersionId;
use name_rules::{BucketName, FileName};
use policy_rules::Known;

/// The account of a store in which no bucket was made.
#[derive(Drop)]
pub struct Account {
    pub account: Text,
}

impl Known for Account {
    ghost state = { state_of };

    fn account(&self) -> &Text {
        &self.account
    }

    fn bucket_name(&self, _bucket: BucketNum) -> Option<&BucketName> {
        None
    }

    fn file_name(&self, _file: VersionId) -> Option<&FileName> {
        None
    }
}
