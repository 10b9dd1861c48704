//! A snapshot stands for the state that it was taken of.
#![tactic(auto)]

ghost use Rattle.std.specs.Prelude.{◌≡◌, Some};
ghost use Rattle.b2_model.specs.State.{State};
ghost use Rattle.b2_model.specs.Stored.{replay, snapshot, stored_part};
ghost use Rattle.sound_states.specs.Sound.{IsSound};

/// A snapshot of the stored part of a sound state replays as that stored part.
#[tactic(auto)]
pub fn snapshots_replay<C>()
    ensures { (M : State C) → IsSound M →
        replay (snapshot (stored_part M)) ≡ Some (stored_part M) }
{}
