//! How requests are read.

ghost use Rattle.std.specs.Prelude.{ℕ, List, Option};
ghost use Rattle.b2_types.specs.declared.call.Call.{Call as TheCall};
ghost use Rattle.b2_types.specs.declared.upload.UploadCall.{UploadCall as TheUpload};
ghost use Rattle.http_edge.specs.declared.head.Head.{Head as TheHead};

/// Which call, or which upload, a request is, and which token it gives. The laws hold of any
/// such reading.
pub trait Requests {
    /// The request with this head and this body gives this token, and is this call.
    ghost call: { TheHead → List ℕ → Option (List ℕ) → TheCall → Type 0 };

    /// The request with this head gives this token, and is this upload.
    ghost upload: { TheHead → Option (List ℕ) → TheUpload → Type 0 };
}
