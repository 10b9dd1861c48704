//! The contents of a state: which of them a change leaves and brings, and that nothing of a change
//! of contents matters but what it makes of them.
#![tactic(auto)]

ghost use Rattle.std.specs.Prelude.{◌≡◌, ◌⊎◌, ℕ, All, Contains};
ghost use Rattle.b2_types.specs.declared.record.ChangeOf.{ChangeOf};
ghost use Rattle.b2_types.specs.declared.record.RecordOf.{RecordOf};
ghost use Rattle.b2_model.specs.State.{State};
ghost use Rattle.b2_model.specs.Changes.{after_change, after_record};
ghost use Rattle.b2_model.specs.Contents.{state_by};
ghost use Rattle.contents_agree.specs.ContentsOf.{contents_of, brought};

/// Two changes of contents that agree on those of a state make the same state of it.
#[tactic(auto)]
pub fn agreeing_contents<C, D>()
    ensures { (f : C → D) (g : C → D) (M : State C) → All (λ c. f c ≡ g c) (contents_of M)
        → state_by f M ≡ state_by g M }
{}

/// A content of the state after a change, or a record, stood in the state before, or came with it.
#[tactic(auto)]
pub fn contents_after<C>()
    ensures change { (t : ℕ) (ch : ChangeOf C) (M : State C) (c : C)
        → Contains (contents_of (after_change t ch M)) c
        → Contains (contents_of M) c ⊎ Contains (brought ch) c }
    ensures record { (r : RecordOf C) (M : State C) (c : C)
        → Contains (contents_of (after_record M r)) c
        → Contains (contents_of M) c ⊎ Contains (brought r.change) c }
{}
