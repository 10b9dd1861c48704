//! A copy is a download followed by an upload.

ghost use Rattle.std.specs.Prelude.{◌≡◌, ℕ, Option as TheOption, true};
ghost use Rattle.b2_types.specs.declared.bucket.Bucket.{Bucket as TheBucket};
ghost use Rattle.b2_types.specs.declared.call.CopyFile.{CopyFile as TheCall};
ghost use Rattle.b2_types.specs.declared.key.Key.{Key as TheKey};
ghost use Rattle.b2_types.specs.declared.version.VersionOf.{VersionOf};
ghost use Rattle.b2_model.specs.Body.{Body, agrees};
ghost use Rattle.b2_model.specs.State.{State};
ghost use Rattle.b2_model.specs.UploadSteps.{file_end};
ghost use Rattle.b2_model.specs.AskCopies.{file_copy};
ghost use Rattle.copy_calls.specs.Copied.{copied_upload};

/// A copy makes and shows what the end of its upload makes and shows, whose digest the content
/// has.
pub fn copies_are_uploads<C>()
    ensures change { (size : C → ℕ) (M : State C) (key : TheOption TheKey) (t len : ℕ)
        (c : TheCall) (b : TheBucket) (v : VersionOf C) (body : Body C)
        → (file_copy size M key t c b v body).change
        ≡ (file_end size M t key body (copied_upload v c b.num len body.digest) b).change }
    ensures answer { (size : C → ℕ) (M : State C) (key : TheOption TheKey) (t len : ℕ)
        (c : TheCall) (b : TheBucket) (v : VersionOf C) (body : Body C)
        → (file_copy size M key t c b v body).answer
        ≡ (file_end size M t key body (copied_upload v c b.num len body.digest) b).answer }
    ensures digest { (c : TheCall) (v : VersionOf C) (bucket len : ℕ) (body : Body C)
        → agrees (copied_upload v c bucket len body.digest).digest body ≡ true }
{}
