//! What holds of each call and each upload that a request asks for.
#![tactic(auto)]

ghost use Rattle.std.specs.Prelude.{◌≡◌, ℕ, true, false, List};
ghost use Rattle.rule_table.specs.declared.call.CallName.{CallName as TheName};
ghost use Rattle.b2_types.specs.declared.call.Call.{Call as TheCall};
ghost use Rattle.b2_types.specs.declared.fault.Target.{Target as TheTarget};
ghost use Rattle.b2_types.specs.declared.fault.Target.TheVariants as target;
ghost use Rattle.b2_types.specs.declared.kinds.ApiVersion.{ApiVersion as TheVersion};
ghost use Rattle.b2_types.specs.declared.upload.UploadCall.{UploadCall as TheUpload};
ghost use Rattle.wire_forms.specs.declared.request.Request.{Request as TheRequest};
ghost use Rattle.call_paths.specs.declared.routes.Route.{Route as TheRoute};
ghost use Rattle.call_paths.specs.Path.{IsPath};
ghost use Rattle.machine_laws.specs.Ranges.{AsksInOrder};
ghost use Rattle.sound_steps.specs.FitSteps.{IsFitCall};
ghost use Rattle.http_edge.specs.Length.{is_upload};
ghost use Rattle.request_calls.specs.declared.asked.Asked.TheVariants as asked;
ghost use Rattle.request_calls.specs.declared.asked.Asking.{Asking as TheAsking};
ghost use Rattle.request_calls.specs.Asked.{IsCallOf, IsUploadTo, IsAsking};
ghost use Rattle.request_laws.specs.Lengths.{HasLength};

/// Each call that a request asks for is fit for the machine: the lifecycle rules that it gives are
/// such as a bucket may have. The range that a download asks for ends where it begins, or after it.
pub fn calls_are_fit()
    ensures fit { (name : TheName) (version : TheVersion) (r : TheRequest) (body : List ℕ)
        (c : TheCall) → IsCallOf name version r body c → IsFitCall c }
    ensures order { (name : TheName) (version : TheVersion) (r : TheRequest) (body : List ℕ)
        (c : TheCall) → IsCallOf name version r body c → AsksInOrder c }
{}

/// Each upload that a head asks for has the length that the head tells, unless it is bad.
pub fn uploads_have_their_lengths()
    ensures { (t : TheTarget) (r : TheRequest) (u : TheUpload) → IsUploadTo t r u
        → HasLength r.length u }
{}

/// The path of an upload names the bucket or the file that it is for. A request on it asks for an
/// upload alone, and on the path of another call for a call alone.
pub fn routes_tell_uploads()
    ensures target { (path : List ℕ) (route : TheRoute) → IsPath path route
        → is_upload route.name ≡ true → route.target ≡ target.Nothing → ⊥ }
    ensures call { (path : List ℕ) (route : TheRoute) (r : TheRequest) (body : List ℕ)
        (asking : TheAsking) → IsPath path route → is_upload route.name ≡ false
        → IsAsking route r body asking → (u : TheUpload) → asking.asked ≡ asked.Upload u → ⊥ }
    ensures upload { (route : TheRoute) (r : TheRequest) (body : List ℕ) (asking : TheAsking)
        → is_upload route.name ≡ true → IsAsking route r body asking → (c : TheCall)
        → asking.asked ≡ asked.Call c → ⊥ }
{}
