//! What a request asks for is one thing.

ghost use Rattle.std.specs.Prelude.{◌≡◌, ℕ, List};
ghost use Rattle.b2_types.specs.declared.fault.Target.{Target as TheTarget};
ghost use Rattle.b2_types.specs.declared.upload.UploadCall.{UploadCall as TheUpload};
ghost use Rattle.wire_forms.specs.declared.request.Request.{Request as TheRequest};
ghost use Rattle.call_paths.specs.declared.routes.Route.{Route as TheRoute};
ghost use Rattle.call_paths.specs.Path.{IsPath};
ghost use Rattle.request_calls.specs.declared.asked.Asking.{Asking as TheAsking};
ghost use Rattle.request_calls.specs.Asked.{IsUploadTo, IsAsking};

/// A head is one upload: to what its path names the headers give one upload, or one fault.
#[tactic(auto, using(crate::proofs::Uploads::one_upload))]
pub fn one_upload()
    ensures { (target : TheTarget) (r : TheRequest) (u v : TheUpload) → IsUploadTo target r u
        → IsUploadTo target r v → u ≡ v }
{}

/// A request asks for one thing: on the route of its path, head and body give one token or none, and
/// one call, one upload or one fault.
pub fn one_asking()
    ensures { (route : TheRoute) (r : TheRequest) (body : List ℕ) (a b : TheAsking)
        → IsPath r.path route → IsAsking route r body a → IsAsking route r body b → a ≡ b }
{}
