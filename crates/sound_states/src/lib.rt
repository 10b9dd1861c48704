//! Sound states: what holds of every state that records and steps give.
#![tactic(auto)]

ghost use Rattle.std.specs.Prelude.{◌≡◌, ℕ, true, List, Some, All};
ghost use Rattle.b2_base.specs.declared.settings.Settings.{Settings as TheSettings};
ghost use Rattle.b2_types.specs.declared.record.RecordOf.{RecordOf};
ghost use Rattle.b2_model.specs.State.{State};
ghost use Rattle.b2_model.specs.Changes.{after_record, new_store};
ghost use Rattle.b2_model.specs.Stored.{applies_change, replay};
ghost use Rattle.sound_states.specs.Sound.{IsSound, IsFitChange};

/// The store that is made is sound.
#[tactic(auto, using(crate::proofs::Made::new_store_sound))]
pub fn made_store_is_sound<C>()
    ensures { (settings : TheSettings) (t : ℕ) → IsSound {C = C} (new_store settings t) }
{}

/// A record that applies keeps a state sound.
#[tactic(auto)]
pub fn records_keep_sound<C>()
    ensures { (M : State C) (r : RecordOf C) → IsSound M → applies_change M r.change ≡ true
        → IsFitChange r.change → IsSound (after_record M r) }
{}

/// What records replay as is sound.
#[tactic(auto)]
pub fn replays_are_sound<C>()
    ensures { (rs : List (RecordOf C)) (S : State C) → All (λ r. IsFitChange r.change) rs
        → replay rs ≡ Some S → IsSound S }
{}
