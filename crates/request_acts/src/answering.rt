//! What answers requests.

ghost use Rattle.std.specs.Prelude.{◌≡◌, ◌≤◌, ◌<◌, ◌+◌, ◌^◌, ℕ, nat_eq, true, List, [], Option, None, IfOk, OnOk, MatchOption, length, take, drop, ⊤};
ghost use Rattle.std.specs.Map.{update};
ghost use Rattle.b2_types.specs.declared.call.Call.{Call as TheCall};
ghost use Rattle.b2_types.specs.declared.upload.UploadCall.{UploadCall as TheUpload};
ghost use Rattle.b2_model.specs.State.{State};
ghost use Rattle.b2_model.specs.Run.{Progress, loses};
ghost use Rattle.http_edge.specs.declared.head.Head.{Head as TheHead};
ghost use Rattle.http_edge.specs.Length.{is_upload};
ghost use Rattle.request_acts.specs.Answering.{IsServedHead, IsAnswer, IsBegun, IsEnded, IsAfter, Upload, Uploads, Contents, with_content, with_piece, whole_of};

use crate::ends::End;
use crate::replies::Reply;
use b2_base::{Blob, ConnNum};
use http_edge::Head;
use std::alloc::Global;

/// What answers requests: the version machine, of which it tells neither the state nor the words
/// otherwise. An upload begins with its head, and its body comes in pieces; at most one is under
/// way on a connection. The content of a reply is read out in pieces, and at most one is being read
/// for a connection. After an `Err` it is not used again.
pub trait Answering {
    /// The request with this head and this body gives this token, and is this call.
    ghost call: { TheHead → List ℕ → Option (List ℕ) → TheCall → Type 0 };

    /// The request with this head gives this token, and is this upload.
    ghost upload: { TheHead → Option (List ℕ) → TheUpload → Type 0 };

    /// The machine is at this state, these random words are left, these uploads are under way, and
    /// these contents are being read.
    ghost at: { Self → State (List ℕ) → List ℕ → (ℕ → Option Upload) → (ℕ → List ℕ) → Type 0 };

    /// The reply to the request, at this reading of the clock in milliseconds since 1970. Where a
    /// content stands in it, that is read for the connection from then on.
    fn answer(
        &mut self,
        alloc: Global,
        reading: u64,
        c: ConnNum,
        head: &Head,
        body: &[u8],
    ) -> Result<Reply, End>
        requires { IsServedHead head.now }
        ensures answer { (P : Progress (List ℕ)) (ups : Uploads) (outs : Contents)
            → at self.old P.state P.words ups outs → outs c ≡ []
            → IfOk result (IsAnswer call (at self.new) ups outs P reading c head.now body.now) }
        ensures some { IfOk result (λ reply. 0 < length reply.text) }
        ensures small { IfOk result (λ reply. length reply.text + reply.len < 2 ^ 64) };

    /// An upload begins on the connection, where none is under way: the bytes that refuse it, where
    /// it is refused.
    fn begin(
        &mut self,
        alloc: Global,
        reading: u64,
        c: ConnNum,
        head: &Head,
    ) -> Result<Option<Blob>, End>
        requires { IsServedHead head.now }
        ensures begun { is_upload head.now.route.name ≡ true → (P : Progress (List ℕ))
            (ups : Uploads) (outs : Contents) → at self.old P.state P.words ups outs
            → IfOk result (IsBegun upload (at self.new) ups outs P reading c head.now) }
        ensures some { IfOk result (λ refused. MatchOption refused ⊤ (λ text. 0 < length text)) };

    /// More bytes come of the body of the connection's upload, where one is under way.
    fn piece(&mut self, alloc: Global, c: ConnNum, bytes: &[u8]) -> Result<(), End>
        ensures { (M : State (List ℕ)) (words : List ℕ) (ups : Uploads) (outs : Contents)
            → at self.old M words ups outs
            → OnOk result (at self.new M words (with_piece ups c bytes.now) outs) };

    /// The body of the connection's upload has come whole: the bytes that answer it, which say
    /// whether the connection stays open. None where no upload is under way, or where not all of
    /// its body came.
    fn end(
        &mut self,
        alloc: Global,
        reading: u64,
        c: ConnNum,
        stay: bool,
    ) -> Result<Option<Blob>, End>
        ensures ended { (P : Progress (List ℕ)) (ups : Uploads) (outs : Contents)
            → at self.old P.state P.words ups outs
            → IfOk result (λ text. MatchOption (whole_of (ups c))
            (at self.new P.state P.words ups outs × (text ≡ None))
            (IsEnded (at self.new) ups outs P reading c stay text)) }
        ensures some { IfOk result (λ text. MatchOption text ⊤ (λ bytes. 0 < length bytes)) };

    /// The connection is lost, and its upload with it, where one is under way.
    fn lost(&mut self, alloc: Global, reading: u64, c: ConnNum) -> Result<(), End>
        ensures { (P : Progress (List ℕ)) (ups : Uploads) (outs : Contents)
            → at self.old P.state P.words ups outs
            → OnOk result (MatchOption (ups c) (at self.new P.state P.words ups outs)
            (λ _. IsAfter (at self.new) P (loses reading c) (update nat_eq ups c None) outs)) };

    /// At most so many bytes, from the place on, of the content that is read for the connection.
    fn read_out(&mut self, alloc: Global, c: ConnNum, from: u64, most: usize) -> Result<Blob, End>
        ensures bytes { (M : State (List ℕ)) (words : List ℕ) (ups : Uploads) (outs : Contents)
            → at self.old M words ups outs
            → IfOk result (λ bytes. at self.new M words ups outs
            × (bytes ≡ take most (drop from (outs c)))) }
        ensures few { IfOk result (λ bytes. length bytes ≤ most) };

    /// No content is read for the connection any longer.
    fn finish_out(&mut self, alloc: Global, c: ConnNum) -> Result<(), End>
        ensures { (M : State (List ℕ)) (words : List ℕ) (ups : Uploads) (outs : Contents)
            → at self.old M words ups outs
            → OnOk result (at self.new M words ups (with_content outs c [])) };
}
