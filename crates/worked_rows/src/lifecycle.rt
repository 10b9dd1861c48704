//! The lifecycle pass.

ghost use Rattle.std.specs.Prelude.{◌≡◌, [], ◌∷◌};
ghost use Rattle.b2_model.specs.Run.{with_pass};
ghost use Rattle.worked_rows.specs.Lifecycle.{faces, day_before, first_day, second_day, after_two_days_held, begun_at_0, lone_marker, without_numbers};

/// A file is hidden when its days have come to the millisecond, and goes with its marker a day
/// later; a hold keeps both.
pub fn lifecycle_days()
    ensures before { faces day_before ≡ (1, 0) ∷ [] }
    ensures hidden { faces first_day ≡ (1, 0) ∷ (2, 86400000) ∷ [] }
    ensures gone { faces second_day ≡ [] }
    ensures held { faces after_two_days_held ≡ (1, 0) ∷ (2, 86400000) ∷ [] }
    ensures day { second_day.pass_day ≡ 2 }
    ensures start { faces (with_pass begun_at_0 172799999) ≡ (1, 0) ∷ [] }
    ensures cancelled { faces (with_pass begun_at_0 172800000) ≡ [] }
    ensures lone { faces (with_pass lone_marker 172799999) ≡ (1, 86400000) ∷ [] }
    ensures lone_gone { faces (with_pass lone_marker 172800000) ≡ [] }
    ensures spent { faces (with_pass without_numbers 86400000) ≡ (1, 0) ∷ [] }
{}
