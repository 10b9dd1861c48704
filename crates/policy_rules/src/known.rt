//! What the policy looks up.

ghost use Rattle.std.specs.Prelude.{◌≡◌, option_map};
ghost use Rattle.std.specs.Option.{option_copied};
ghost use Rattle.b2_base.specs.declared.extent.Extent.{Extent as TheExtent};
ghost use Rattle.b2_model.specs.State.{State, bucket_at};
ghost use Rattle.b2_model.specs.Policy.{name_at};

use b2_base::{BucketNum, Text};
use b2_types::VersionId;
use name_rules::{BucketName, FileName};

/// The store's account, and the names of its buckets and files.
pub trait Known {
    /// The state of the machine that is known.
    ghost state: { Self → State TheExtent };

    fn account(&self) -> &Text
        ensures { result.now ≡ (state self.now).settings.account };

    /// The name of the bucket, where it stands.
    fn bucket_name(&self, bucket: BucketNum) -> Option<&BucketName>
        ensures { option_copied result
            ≡ option_map (λ b. b.name) (bucket_at (state self.now) bucket) };

    /// The name of the file, where it stands.
    fn file_name(&self, file: VersionId) -> Option<&FileName>
        ensures { option_copied result ≡ name_at (state self.now) (file.bucket, file.num) };
}
