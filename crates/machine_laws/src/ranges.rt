//! Ranges of downloads.

ghost use Rattle.std.specs.Prelude.{ℕ, List, Option};
ghost use Rattle.b2_types.specs.declared.call.Call.{Call as TheCall};
ghost use Rattle.b2_types.specs.Answer.{IsSendable};
ghost use Rattle.b2_model.specs.State.{State, Pieces};
ghost use Rattle.b2_model.specs.Ask.{ask};
ghost use Rattle.machine_laws.specs.Ranges.{AsksInOrder};

/// What a download sends of a content is the whole, or a range of it that has a byte.
#[tactic(auto, using(crate::proofs::Sendable::sendable))]
pub fn sendable_answers<C>()
    ensures { (P : Pieces C) (M : State C) (t : ℕ) (words : List ℕ) (token : Option (List ℕ))
        (c : TheCall) → AsksInOrder c → IsSendable (ask P M t words token c).answer }
{}
