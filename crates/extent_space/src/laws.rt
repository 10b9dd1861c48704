//! Laws of rooms over many calls.

ghost use Rattle.std.specs.Prelude.{◌≡◌, ℕ, ◌+◌, ◌<◌, List, ◌∷◌, All, ◌↔◌};
ghost use Rattle.b2_base.specs.declared.extent.Extent.{Extent as Place};
ghost use Rattle.extent_space.specs.Room.{Apart, GivesBack, IsFree, IsRoomOf, IsTaken, IsTidy, IsUsed, Room, Takes, rounded};
ghost use Rattle.extent_space.specs.Runs.{Change, IsUsedAfter, Runs};

/// The extents that are in use determine the holes and the end.
pub fn one_room()
    ensures { (limit : ℕ) (used : List Place) (r s : Room)
        → IsRoomOf limit used r → IsRoomOf limit used s → r ≡ s }
{}

/// A run of takes and returns leaves in use what its changes say, and with it one room.
#[tactic(auto, using(crate::proofs::Runs::after_run, crate::proofs::Runs::one_run))]
pub fn room_after_a_run()
    ensures used { (changes : List Change) (r s : Room) → Runs r changes s
        → (b : ℕ) → IsUsed s b ↔ IsUsedAfter (IsUsed r) changes b }
    ensures one { (changes : List Change) (r s t : Room) → IsTidy r
        → Runs r changes s → Runs r changes t → s ≡ t }
{}

/// What is taken and given back again leaves the room as it was.
pub fn taken_and_back()
    ensures { (r m s : Room) (e : Place) → IsTidy r → IsFree r e.at (e.at + rounded e.len)
        → Takes r e m → GivesBack m e s → s ≡ r }
{}

/// A take adds its extent to those in use, and a return takes its own away.
pub fn extents_in_use()
    ensures take { (limit : ℕ) (used : List Place) (r s : Room) (e : Place)
        → IsRoomOf limit used r → Takes r e s → IsRoomOf limit (e ∷ used) s }
    ensures back { (limit : ℕ) (used : List Place) (r s : Room) (e : Place)
        → IsRoomOf limit (e ∷ used) r → All (Apart e) used → GivesBack r e s
        → IsRoomOf limit used s }
{}
