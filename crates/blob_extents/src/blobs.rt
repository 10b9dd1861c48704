//! The room of contents, and who holds extents in it.

ghost use Rattle.std.specs.Prelude.{◌≡◌, ◌+◌, ◌^◌, ◌≤◌, ◌++◌, ℕ, List, [], ◌∷◌, length, map, All, Contains, IsOk, IfOk, OnOk, OnErr, IfErr, Some, None, IsTrue, ◌↔◌, MatchOption};
ghost use Rattle.std.specs.Bool.{OnTrue, OnFalse};
ghost use Rattle.std.specs.List.{AllPairs};
ghost use Rattle.b2_base.specs.Failure.{IfFault};
ghost use Rattle.b2_base.specs.declared.extent.Extent.{Extent as Place};
ghost use Rattle.extent_space.specs.Room.{Apart, GivesBack, IsPlaced, IsRoomOf, IsTaken, Takes, extent_for};
ghost use Rattle.blob_extents.specs.Uses.{IsInUse, TakesOut};
ghost use Rattle.blob_extents.specs.States.{staging_extent, HasHashed, sealed_extent, spent_extent, kept_extent, pin_extent};

use crate::states::{Kept, Pin, Sealed, Spent, Staging};
use b2_base::{Extent, Memory, Or};
use extent_space::{AreaEnd, Space};
use std::alloc::Global;
use std::marker::Model;

/// The room of contents, which clauses see as its holes and end, with the extents that are pinned and
/// those that go back with their last unpin. It keeps no list of the extents that are written or kept,
/// since finding one in it would take longer the more there are: their bytes are in use in the room,
/// and each has one value that owns it, a [`Staging`], [`Sealed`], [`Spent`] or [`Kept`].
#[derive(Debug, Drop)]
pub struct Blobs {
    space: Space,
    pinned: Vec<Extent>,
    released: Vec<Extent>,
}

impl Model for Blobs {
    ghost use Rattle.std.specs.Prelude.{◌^◌, ◌≤◌};
    ghost use Rattle.blob_extents.specs.Uses.{Uses};

    ghost Value = { Uses };

    ghost view = { λ b. record {
      room = b.space;
      pinned = b.pinned.items;
      released = b.released.items;
    } };

    ghost invariant = { λ b. b.space.limit ≤ 2 ^ 62 };
}

// Takes one out of the list, where it is there.
fn take_out(extents: &mut Vec<Extent>, e: Extent) -> bool
    ensures out { OnTrue result (TakesOut e extents.old.items extents.new.items) }
    ensures absent { OnFalse result ((extents.new.items ≡ extents.old.items)
        × (Contains extents.old.items e → ⊥)) }
{
    let Some(place) = extents.iter().position(|x| *x == e) else {
        return false;
    };
    extents.remove(place);
    true
}

impl Blobs {
    /// The room in which these extents are kept, and nothing else.
    pub fn from_used(
        alloc: Global,
        used: &[Extent],
        limit: u64,
    ) -> Result<(Blobs, Vec<Kept>), Memory>
        requires places { All (IsPlaced limit) used.now }
        requires apart { AllPairs Apart used.now }
        requires limit { limit ≤ 2 ^ 62 }
        ensures room { IfOk result (λ r. IsRoomOf limit used.now r.0.room) }
        ensures taken { IfOk result (λ r. All (IsTaken r.0.room) used.now) }
        ensures pinned { IfOk result (λ r. r.0.pinned ≡ []) }
        ensures released { IfOk result (λ r. r.0.released ≡ []) }
        ensures kept { IfOk result (λ r. map kept_extent r.1.items ≡ used.now) }
    {
        let space = Space::from_used(alloc, used, limit)?;
        let mut kept = Vec::new(alloc);
        for extent in used {
            kept.push(Kept::new(*extent))?;
        }
        let blobs = Blobs {
            space,
            pinned: Vec::new(alloc),
            released: Vec::new(alloc),
        };
        Ok((blobs, kept))
    }

    /// Takes room for a content of this length.
    pub fn begin(&mut self, len: u64) -> Result<Staging, Or<AreaEnd>>
        ensures place { IfOk result (λ s. extent_for self.old.room len ≡ Some (staging_extent s)) }
        ensures full { IfFault result (λ _. extent_for self.old.room len ≡ None) }
        ensures len { IfOk result (λ s. (staging_extent s).len ≡ len) }
        ensures takes { IfOk result (λ s. Takes self.old.room (staging_extent s) self.new.room) }
        ensures in_use { IfOk result (λ s. IsInUse self.new (staging_extent s)) }
        ensures apart { IfOk result (λ s. (e : Place) → IsInUse self.old e
            → Apart (staging_extent s) e) }
        ensures others { (e : Place) → IsInUse self.old e → IsInUse self.new e }
        ensures pinned { self.new.pinned ≡ self.old.pinned }
        ensures released { self.new.released ≡ self.old.released }
        ensures none { IfOk result (λ s. HasHashed s []) }
        ensures err { OnErr result (self.new ≡ self.old) }
    {
        let extent = self.space.take(len)?;
        Ok(Staging::new(extent))
    }

    /// Keeps a content.
    pub fn keep(&mut self, s: Sealed) -> Result<Kept, (Sealed, Memory)>
        ensures extent { IfOk result (λ k. kept_extent k ≡ sealed_extent s) }
        ensures same { self.new ≡ self.old }
        ensures always { IsOk result }
    {
        Ok(s.keep())
    }

    /// Whether the extent is in use as a whole. One of no bytes is where it stands at the front of the
    /// area.
    pub fn is_in_use(&self, e: Extent) -> bool
        ensures { IsTrue result ↔ IsInUse self.now e }
    {
        if e.len > 0 {
            return self.space.is_taken(e);
        }
        e.at == 0
    }

    /// The handle of a content, for an owner that knows where it stands and keeps no handles. None where
    /// the extent is not in use.
    pub fn kept(&self, e: Extent) -> Option<Kept>
        ensures { MatchOption result (IsInUse self.now e → ⊥)
            (λ k. IsInUse self.now e × (kept_extent k ≡ e)) }
    {
        // That the room is tidy, and so ends before its limit, is known from here on.
        let _ = self.space.end();
        if !self.is_in_use(e) {
            return None;
        }
        Some(Kept::new(e))
    }

    /// Whether the content is looked at, by this look or by another.
    pub fn is_pinned(&self, p: &Pin) -> bool
        ensures { IsTrue result ↔ Contains self.now.pinned (pin_extent p.now) }
    {
        self.pinned.contains(&p.extent())
    }

    /// Gives back the extent of a content that nobody wants. At `Err` it stays in use.
    pub fn give_up(&mut self, s: Spent) -> Result<(), Memory>
        requires { IsInUse self.old (spent_extent s) }
        ensures back { OnOk result (GivesBack self.old.room (spent_extent s) self.new.room) }
        ensures others { OnOk result ((e : Place) → Apart (spent_extent s) e
            → IsInUse self.old e → IsInUse self.new e) }
        ensures pinned { self.new.pinned ≡ self.old.pinned }
        ensures released { self.new.released ≡ self.old.released }
        ensures err { OnErr result (self.new ≡ self.old) }
    {
        self.space.give_back(s.place())?;
        Ok(())
    }

    /// Looks at a kept content, whose bytes stay until the look ends.
    pub fn pin(&mut self, k: &Kept) -> Result<Pin, Memory>
        ensures extent { IfOk result (λ p. pin_extent p ≡ kept_extent k.now) }
        ensures pinned { OnOk result
            (self.new.pinned ≡ self.old.pinned ++ kept_extent k.now ∷ []) }
        ensures released { self.new.released ≡ self.old.released }
        ensures room { self.new.room ≡ self.old.room }
        ensures err { OnErr result (self.new ≡ self.old) }
    {
        self.pinned.push(k.extent())?;
        Ok(Pin::of(k))
    }

    /// Ends a look. With the last one an extent that was released goes back; at `Err` it stays in
    /// use.
    pub fn unpin(&mut self, p: Pin) -> Result<(), Memory>
        requires pinned { Contains self.old.pinned (pin_extent p) }
        requires in_use { IsInUse self.old (pin_extent p) }
        ensures pinned { TakesOut (pin_extent p) self.old.pinned self.new.pinned }
        ensures held { Contains self.new.pinned (pin_extent p)
            → (self.new.room ≡ self.old.room) × (self.new.released ≡ self.old.released) }
        ensures kept { (Contains self.old.released (pin_extent p) → ⊥)
            → (self.new.room ≡ self.old.room) × (self.new.released ≡ self.old.released) }
        ensures back { OnOk result ((Contains self.new.pinned (pin_extent p) → ⊥)
            → Contains self.old.released (pin_extent p)
            → GivesBack self.old.room (pin_extent p) self.new.room
            × TakesOut (pin_extent p) self.old.released self.new.released) }
        ensures others { OnOk result ((e : Place) → Apart (pin_extent p) e
            → IsInUse self.old e → IsInUse self.new e) }
        ensures err { OnErr result (self.new.room ≡ self.old.room) }
    {
        let extent = p.place();
        take_out(&mut self.pinned, extent);
        if self.pinned.contains(&extent) {
            return Ok(());
        }
        if take_out(&mut self.released, extent) {
            self.space.give_back(extent)?;
        }
        Ok(())
    }

    /// Gives back the extent of a kept content, at once where no pin holds it, else with its last
    /// unpin. At `Err` it stays in use.
    pub fn release(&mut self, k: Kept) -> Result<(), Memory>
        requires { IsInUse self.old (kept_extent k) }
        ensures held { Contains self.old.pinned (kept_extent k) → (self.new.room ≡ self.old.room)
            × OnOk result (self.new.released ≡ self.old.released ++ kept_extent k ∷ []) }
        ensures back { (Contains self.old.pinned (kept_extent k) → ⊥)
            → OnOk result (GivesBack self.old.room (kept_extent k) self.new.room)
            × (self.new.released ≡ self.old.released) }
        ensures others { OnOk result ((e : Place) → Apart (kept_extent k) e
            → IsInUse self.old e → IsInUse self.new e) }
        ensures pinned { self.new.pinned ≡ self.old.pinned }
        ensures err { OnErr result (self.new ≡ self.old) }
    {
        let extent = k.place();
        if self.pinned.contains(&extent) {
            self.released.push(extent)?;
            return Ok(());
        }
        self.space.give_back(extent)?;
        Ok(())
    }
}
