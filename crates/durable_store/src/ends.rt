//! Uploads that end.

ghost use Rattle.std.specs.Prelude.{◌≡◌, ◌≤◌, ◌∷◌, ◌++◌, ℕ, List, true, ⊤, Some, IfOk, IsSome, MatchOption};
ghost use Rattle.b2_model.specs.Body.{digest_rule, told_digest};
ghost use Rattle.b2_model.specs.Changes.{after_record};
ghost use Rattle.b2_model.specs.Stored.{applies_change};
ghost use Rattle.sound_states.specs.Sound.{IsFitChange};
ghost use Rattle.contents_agree.specs.ContentsOf.{brought, contents_of};
ghost use Rattle.new_versions.specs.Bodies.{body_at};
ghost use Rattle.core_uploads.specs.Uploads.{IsEnd, IsEndWritable};
ghost use Rattle.b2_model.specs.Body.{Body as TheBody};
ghost use Rattle.b2_base.specs.declared.extent.Extent.{Extent as Place};
ghost use Rattle.b2_types.specs.declared.key.Flight.{Flight as TheFlight};
ghost use Rattle.hex.specs.Hex.{decode_sized};
ghost use Rattle.stored_contents.specs.Held.{Holding, IsHeld};
ghost use Rattle.b2_model.specs.Run.{Progress, with_daily_pass};
ghost use Rattle.b2_model.specs.State.{State};
ghost use Rattle.b2_model.specs.UploadSteps.{flight_of, without_flight};
ghost use Rattle.durable_store.specs.Ends.{Ends, IsDecided, IsPlain, is_whole, told_under};
ghost use Rattle.durable_store.specs.Owned.{owning};
ghost use Rattle.durable_store.specs.Store.{Came, IsStore, Read};

use crate::lengths::body_length;
use crate::moments::moment_at;
use crate::store::{Store, written};
use b2_base::{ConnNum, Extent, Memory, Moment, Or};
use b2_types::{Answer, DigestRule, Record, UploadCall};
use core_decisions::Decision;
use core_state::Core;
use core_uploads::upload_end;
use disk_model::{Disk, DiskFault};
use hex::decode_to_slice;
use new_versions::Body;
use std::alloc::Global;
use std::slice::from_ref;
use stored_contents::Contents;

// The digest whose digits these bytes are, if they are any.
fn digest_of(digits: &[u8]) -> Option<[u8; 20]>
    ensures { result ≡ told_digest (decode_sized digits.now 20) }
{
    let mut digest = [0; 20];
    match decode_to_slice(digits, &mut digest) {
        Ok(()) => Some(digest),
        Err(_) => None,
    }
}

// What an upload tells of its digest by the bytes behind its content.
fn told_of(upload: &UploadCall, rest: &[u8]) -> Option<[u8; 20]>
    ensures { result ≡ told_under (digest_rule upload.now) rest.now }
{
    let rule = match upload {
        UploadCall::File(file) => file.digest,
        UploadCall::Part(part) => part.digest,
        UploadCall::Bad(_) => DigestRule::NotVerified,
    };
    match rule {
        DigestRule::AtEnd => digest_of(rest),
        _ => None,
    }
}

// What the upload on the connection tells of its digest.
fn told_on(core: &Core, c: ConnNum, rest: &[u8]) -> Option<[u8; 20]>
    ensures { (f : TheFlight) → flight_of core.now c ≡ Some f
        → result ≡ told_under (digest_rule f.upload) rest.now }
{
    match core.flight(c) {
        Some(flight) => told_of(&flight.upload, rest),
        None => None,
    }
}

// The content of an upload that made no version goes back.
fn given_back<D: Disk>(
    disk: &D,
    core: Core,
    contents: Contents,
    content: Extent,
) -> Result<Store, Memory>
    ensures state { IfOk result (λ s. s.core ≡ core) }
    ensures held { IfOk result (λ s. (h : Holding) → h.owned ≡ content ∷ contents_of core
        → IsHeld contents (D.state disk.now) h
        → IsHeld s.contents (D.state disk.now) (owning core h)) }
{
    let mut contents = contents;
    contents.release(disk, from_ref(&content))?;
    Ok(Store { core, contents })
}

// The answer to the end of an upload that made no version.
fn refused<D: Disk>(
    disk: &D,
    core: Core,
    contents: Contents,
    content: Extent,
    answer: Answer,
) -> Result<(Store, Answer), Memory>
    ensures state { IfOk result (λ r. r.0.core ≡ core) }
    ensures answer { IfOk result (λ r. r.1 ≡ answer) }
    ensures held { IfOk result (λ r. (h : Holding) → h.owned ≡ content ∷ contents_of core
        → IsHeld contents (D.state disk.now) h
        → IsHeld r.0.contents (D.state disk.now) (owning core h)) }
{
    let store = given_back(disk, core, contents, content)?;
    Ok((store, answer))
}

// The answer to the end of an upload that made one.
fn recorded<D: Disk>(
    alloc: Global,
    disk: &D,
    core: Core,
    contents: Contents,
    entry: Record,
    answer: Answer,
) -> Result<(Store, Answer), Memory>
    requires fit { IsFitChange entry.change }
    requires applies { applies_change core entry.change ≡ true }
    ensures state { IfOk result (λ r. r.0.core ≡ after_record core entry) }
    ensures answer { IfOk result (λ r. r.1 ≡ answer) }
    ensures held { IfOk result (λ r. (h : Holding)
        → h.owned ≡ brought entry.change ++ contents_of core
        → IsHeld contents (D.state disk.now) h
        → IsHeld r.0.contents (D.state disk.now) (owning r.0.core h)) }
{
    let store = written(alloc, disk, core, contents, entry)?;
    Ok((store, answer))
}

// The upload on the connection ends with a body whose content is owned besides: it is a version's or a
// part's from then on, or goes back.
fn decided<D: Disk>(
    alloc: Global,
    disk: &D,
    core: Core,
    contents: Contents,
    content: Extent,
    decision: Decision,
) -> Result<(Store, Answer), Memory>
    requires writable { (b : TheBody Place) × (b.content ≡ content) × IsEndWritable core b decision }
    ensures decided { (M : State Place) (t : ℕ) (f : TheFlight) (b : TheBody Place)
        → core ≡ without_flight M t f.conn → IsEnd M t f b decision
        → IfOk result (λ r. IsDecided M t f b r.0.core r.1) }
    ensures held { IfOk result (λ r. (h : Holding) → h.owned ≡ content ∷ contents_of core
        → IsHeld contents (D.state disk.now) h
        → IsHeld r.0.contents (D.state disk.now) (owning r.0.core h)) }
{
    core.is_sound();
    match decision {
        Decision::Reply(answer) => refused(disk, core, contents, content, answer),
        Decision::Write(entry, answer) => recorded(alloc, disk, core, contents, entry, answer),
    }
}

// The upload on the connection ends at its moment with a body whose content is owned besides.
fn ended<D: Disk>(
    alloc: Global,
    disk: &D,
    store: Store,
    t: Moment,
    c: ConnNum,
    body: &Body,
) -> Result<(Store, Answer), Memory>
    requires later { store.core.kept ≤ t }
    requires under_way { IsSome (flight_of store.core c) }
    ensures decided { IfOk result (λ r. (f : TheFlight) → flight_of store.core c ≡ Some f
        → IsDecided (with_daily_pass store.core t) t f (body_at body.now) r.0.core r.1) }
    ensures plain { IfOk result (λ r. IsPlain r.1) }
    ensures held { IfOk result (λ r. (h : Holding)
        → h.owned ≡ body.now.content ∷ contents_of store.core
        → IsHeld store.contents (D.state disk.now) h
        → IsHeld r.0.contents (D.state disk.now) (owning r.0.core h)) }
{
    let Store { core, contents } = store.with_daily_pass(alloc, disk, t)?;
    let (core, decision) = upload_end(alloc, core, t, c, body)?;
    let (store, answer) = decided(alloc, disk, core, contents, body.content, decision)?;
    Ok((store, answer))
}

impl Store {
    /// The upload on the connection ends, where one is under way of whose body all bytes came: the store
    /// after it, and the answer.
    pub fn end<D: Disk>(
        self,
        alloc: Global,
        disk: &mut D,
        reading: u64,
        c: ConnNum,
    ) -> Result<(Store, Option<Answer>), Or<DiskFault>>
        ensures ends { IfOk result (λ r. (P : Progress (List ℕ)) (came : Came) (read : Read)
            → IsStore self (D.state disk.old) P.state came read
            → Ends r.0 (D.state disk.new) P reading c came read r.1 (flight_of P.state c) (came c)) }
        ensures plain { IfOk result (λ r. MatchOption r.1 ⊤ IsPlain) }
    {
        if !self.came_whole(disk, c) {
            return Ok((self, None));
        }
        let t = moment_at(&self.core, reading);
        self.core.is_sound();
        let Store { core, mut contents } = self;
        let Some(whole) = contents.seal(disk, c.get() as u64)? else {
            return Ok((Store { core, contents }, None));
        };
        let body = Body {
            content: whole.extent,
            digest: whole.digest,
            told: told_on(&core, c, &whole.rest),
        };
        let (store, answer) = ended(alloc, disk, Store { core, contents }, t, c, &body)?;
        Ok((store, Some(answer)))
    }

    // Whether an upload is under way of whose body all bytes came.
    fn came_whole<D: Disk>(&self, disk: &D, c: ConnNum) -> bool
        ensures under_way { result ≡ true → IsSome (flight_of self.now.core c) }
        ensures whole { (M : State (List ℕ)) (came : Came) (read : Read)
            → IsStore self.now (D.state disk.now) M came read
            → result ≡ is_whole (flight_of M c) (came c) }
    {
        match self.core.flight(c) {
            Some(flight) => {
                let came = self.contents.came(disk, c.get() as u64);
                came == body_length(&flight.upload)
            }
            None => false,
        }
    }
}
