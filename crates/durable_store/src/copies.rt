//! Copies inside the store.

ghost use Rattle.std.specs.Prelude.{◌≡◌, ◌∷◌, ◌++◌, ◌+◌, ◌≤◌, ℕ, List, true, IfOk, All, Contains, length, take, drop, flat_map};
ghost use Rattle.std.specs.Option.{option_copied};
ghost use Rattle.b2_types.specs.declared.call.Call.TheVariants as calls;
ghost use Rattle.b2_model.specs.Changes.{after_record};
ghost use Rattle.b2_model.specs.Stored.{applies_change};
ghost use Rattle.sound_states.specs.Sound.{IsFitChange};
ghost use Rattle.contents_agree.specs.ContentsOf.{brought, contents_of};
ghost use Rattle.core_copies.specs.Copied.{IsAllowed, IsPlanOf};
ghost use Rattle.stored_contents.specs.Held.{Holding, IsHeld};
ghost use Rattle.durable_store.specs.Carried.{IsCarried};
ghost use Rattle.durable_store.specs.Copied.{HasCopy, IsRefusedFor, WritesCopy, after_decision, told_by};
ghost use Rattle.durable_store.specs.Owned.{IsKept, owning};

use crate::store::{Store, written};
use b2_base::{Extent, Memory, Moment, Or};
use b2_types::{Answer, AnswerOf, CopyFile, CopyPart, Fault, Record};
use copy_calls::CopiedBytes;
use core_copies::{CopyPlan, check_file_copy, check_part_copy, end_file_copy, end_part_copy};
use core_decisions::Decision;
use core_state::Core;
use disk_model::Disk;
use std::alloc::Global;
use std::slice::from_ref;
use stored_contents::{Contents, StoreFault};

// The bytes of the plan stand at an extent of their own.
fn copied<D: Disk>(
    alloc: Global,
    disk: &mut D,
    contents: &mut Contents,
    plan: &CopyPlan,
) -> Result<CopiedBytes, Or<StoreFault>>
    ensures { (h : Holding) → IsHeld contents.old (D.state disk.old) h
        → All (Contains h.owned) plan.now.content
        → plan.now.span.at + plan.now.span.len ≤ length (flat_map h.meaning plan.now.content)
        → IfOk result (λ bytes. (k : Holding) × HasCopy h
        (take plan.now.span.len (drop plan.now.span.at (flat_map h.meaning plan.now.content))) bytes k
        × IsHeld contents.new (D.state disk.new) k) }
{
    let pieces = plan.content.get();
    let Some(whole) = contents.copy(alloc, disk, pieces, plan.span.at, plan.span.len)? else {
        return Err(Or::Fault(StoreFault::DiskFault));
    };
    let content = whole.extent;
    let digest = whole.digest;
    Ok(CopiedBytes { content, digest })
}

// The answer to a copy that no record brings: its content goes back.
fn dropped<D: Disk>(
    disk: &D,
    core: Core,
    contents: Contents,
    content: Extent,
    answer: Answer,
) -> Result<(Store, Answer), Memory>
    ensures state { IfOk result (λ r. r.0.core ≡ core) }
    ensures answer { IfOk result (λ r. r.1 ≡ answer) }
    ensures held { IfOk result (λ r. (h : Holding) → h.owned ≡ content ∷ contents_of core
        → IsHeld contents (D.state disk.now) h
        → IsHeld r.0.contents (D.state disk.now) (owning core h)) }
{
    let mut contents = contents;
    contents.release(disk, from_ref(&content))?;
    Ok((Store { core, contents }, answer))
}

// The answer to a copy that a record brings.
fn recorded<D: Disk>(
    alloc: Global,
    disk: &D,
    core: Core,
    contents: Contents,
    entry: Record,
    answer: Answer,
) -> Result<(Store, Answer), Memory>
    requires fit { IsFitChange entry.change }
    requires applies { applies_change core entry.change ≡ true }
    ensures state { IfOk result (λ r. r.0.core ≡ after_record core entry) }
    ensures answer { IfOk result (λ r. r.1 ≡ answer) }
    ensures held { IfOk result (λ r. (h : Holding)
        → h.owned ≡ brought entry.change ++ contents_of core
        → IsHeld contents (D.state disk.now) h
        → IsHeld r.0.contents (D.state disk.now) (owning r.0.core h)) }
{
    let store = written(alloc, disk, core, contents, entry)?;
    Ok((store, answer))
}

// A decision on a copy whose content is owned besides: it is a version's or a part's from then on, or
// goes back.
fn settled<D: Disk>(
    alloc: Global,
    disk: &D,
    core: Core,
    contents: Contents,
    content: Extent,
    decision: Decision,
) -> Result<(Store, Answer), Memory>
    requires writes { WritesCopy core content decision }
    ensures state { IfOk result (λ r. r.0.core ≡ after_decision core decision) }
    ensures answer { IfOk result (λ r. r.1 ≡ told_by decision) }
    ensures held { IfOk result (λ r. (h : Holding) → h.owned ≡ content ∷ contents_of core
        → IsHeld contents (D.state disk.now) h
        → IsHeld r.0.contents (D.state disk.now) (owning r.0.core h)) }
{
    match decision {
        Decision::Reply(answer) => dropped(disk, core, contents, content, answer),
        Decision::Write(entry, answer) => recorded(alloc, disk, core, contents, entry, answer),
    }
}

impl Store {
    // What is answered to a copy that is refused before anything is copied.
    fn copy_refused(self, t: Moment, error: Or<Fault>) -> Result<(Store, Answer), Or<StoreFault>>
        requires later { self.core.now ≤ t }
        ensures { IfOk result (λ r. IsRefusedFor self t error r.0 r.1) }
    {
        self.core.is_sound();
        let Store { core, contents } = self;
        let core = core.with_moment(t);
        match error {
            Or::Memory => Err(Or::Memory),
            Or::Fault(fault) => Ok((Store { core, contents }, AnswerOf::Refused(fault))),
        }
    }

    // A copy to a file that no rule refused.
    fn file_copied<D: Disk>(
        self,
        alloc: Global,
        disk: &mut D,
        t: Moment,
        token: Option<&[u8]>,
        call: &CopyFile,
        plan: &CopyPlan,
    ) -> Result<(Store, Answer), Or<StoreFault>>
        requires later { self.core.now ≤ t }
        requires allowed { IsAllowed self.core t (option_copied token) (calls.CopyFile call.now) }
        requires plan { IsPlanOf self.core call.now.source call.now.range plan.now }
        ensures { IfOk result (λ r. (h : Holding) (words : List ℕ)
            → IsKept self (D.state disk.old) h
            → IsCarried self.core h t words words (option_copied token.entry)
            (calls.CopyFile call.now) r.0 (D.state disk.new) r.1) }
    {
        self.core.is_sound();
        let Store { core, mut contents } = self;
        let bytes = copied(alloc, disk, &mut contents, plan)?;
        let decision = end_file_copy(alloc, &core, t, token, call, &bytes)?;
        let core = core.with_moment(t);
        let made = settled(alloc, disk, core, contents, bytes.content, decision)?;
        Ok(made)
    }

    /// A copy to a file, at its moment.
    pub(crate) fn copy_file<D: Disk>(
        self,
        alloc: Global,
        disk: &mut D,
        t: Moment,
        token: Option<&[u8]>,
        call: &CopyFile,
    ) -> Result<(Store, Answer), Or<StoreFault>>
        requires later { self.core.now ≤ t }
        ensures { IfOk result (λ r. (h : Holding) (words : List ℕ)
            → IsKept self (D.state disk.old) h
            → IsCarried self.core h t words words (option_copied token.entry)
            (calls.CopyFile call.now) r.0 (D.state disk.new) r.1) }
    {
        match check_file_copy(alloc, &self.core, t, token, call) {
            Ok(plan) => self.file_copied(alloc, disk, t, token, call, &plan),
            Err(error) => self.copy_refused(t, error),
        }
    }

    // A copy to a part that no rule refused.
    fn part_copied<D: Disk>(
        self,
        alloc: Global,
        disk: &mut D,
        t: Moment,
        token: Option<&[u8]>,
        call: &CopyPart,
        plan: &CopyPlan,
    ) -> Result<(Store, Answer), Or<StoreFault>>
        requires later { self.core.now ≤ t }
        requires allowed { IsAllowed self.core t (option_copied token) (calls.CopyPart call.now) }
        requires plan { IsPlanOf self.core call.now.source call.now.range plan.now }
        ensures { IfOk result (λ r. (h : Holding) (words : List ℕ)
            → IsKept self (D.state disk.old) h
            → IsCarried self.core h t words words (option_copied token.entry)
            (calls.CopyPart call.now) r.0 (D.state disk.new) r.1) }
    {
        self.core.is_sound();
        let Store { core, mut contents } = self;
        let bytes = copied(alloc, disk, &mut contents, plan)?;
        let decision = end_part_copy(&core, t, token, call, &bytes)?;
        let core = core.with_moment(t);
        let made = settled(alloc, disk, core, contents, bytes.content, decision)?;
        Ok(made)
    }

    /// A copy to a part of a large file, at its moment.
    pub(crate) fn copy_part<D: Disk>(
        self,
        alloc: Global,
        disk: &mut D,
        t: Moment,
        token: Option<&[u8]>,
        call: &CopyPart,
    ) -> Result<(Store, Answer), Or<StoreFault>>
        requires later { self.core.now ≤ t }
        ensures { IfOk result (λ r. (h : Holding) (words : List ℕ)
            → IsKept self (D.state disk.old) h
            → IsCarried self.core h t words words (option_copied token.entry)
            (calls.CopyPart call.now) r.0 (D.state disk.new) r.1) }
    {
        match check_part_copy(alloc, &self.core, t, token, call) {
            Ok(plan) => self.part_copied(alloc, disk, t, token, call, &plan),
            Err(error) => self.copy_refused(t, error),
        }
    }
}
