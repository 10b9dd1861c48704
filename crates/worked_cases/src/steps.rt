//! Steps that are none.

ghost use Rattle.std.specs.Prelude.{◌≡◌, [], ◌∷◌};
ghost use Rattle.b2_model.specs.Run.{loses};
ghost use Rattle.worked_cases.specs.Steps.{run_of, after_begin, begin_at, end_at, connections};

/// An upload that begins where one is under way is no step, nor is the end or the loss of one where
/// none is.
pub fn no_steps()
    ensures begin { run_of (begin_at 3000 1 ∷ begin_at 4000 1 ∷ []) ≡ after_begin }
    ensures end_of { run_of (end_at 3000 1 ∷ []) ≡ run_of [] }
    ensures loss { run_of (loses 3000 1 ∷ []) ≡ run_of [] }
    ensures other { run_of (begin_at 3000 1 ∷ loses 4000 2 ∷ []) ≡ after_begin }
{}

/// Uploads under way stand by connection.
pub fn uploads_by_connection()
    ensures rising { connections 1 2 ≡ 1 ∷ 2 ∷ [] }
    ensures falling { connections 2 1 ≡ 1 ∷ 2 ∷ [] }
{}
