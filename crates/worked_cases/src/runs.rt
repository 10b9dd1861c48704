//! Runs of steps, restarts, and the stored part.

ghost use Rattle.std.specs.Prelude.{◌≡◌, [], ◌∷◌, Some};
ghost use Rattle.b2_model.specs.Stored.{stored_part};
ghost use Rattle.worked_rows.specs.Store.{numbers_in};
ghost use Rattle.worked_cases.specs.Runs.{bucket_names, replay_of, falling_readings, far, next_day, second_opening, uploads, full, before_finish};

/// A reading before the last is taken as the last; the first step of a day has a pass before it.
pub fn moments()
    ensures falling { falling_readings.state.now ≡ 5000 }
    ensures far { far.state.now ≡ 253402300799999 }
    ensures day { next_day.state.pass_day ≡ 1 }
    ensures both { bucket_names next_day ≡ bucket_names falling_readings }
{}

/// Opening a store again goes back to the last moment that was kept; it forgets tokens and uploads.
pub fn restart()
    ensures now { second_opening.state.now ≡ 1000 }
    ensures boot { second_opening.state.boot ≡ 2 }
    ensures serial { second_opening.state.serial ≡ 0 }
    ensures grants { second_opening.state.grants ≡ [] }
    ensures flights { second_opening.state.flights ≡ [] }
{}

/// An upload that ends makes a version, and one that is lost makes none.
pub fn uploads_in_a_run()
    ensures nums { numbers_in uploads.state ≡ 1 ∷ [] }
    ensures flights { uploads.state.flights ≡ [] }
    ensures now { uploads.state.now ≡ 6000 }
    ensures kept { uploads.state.kept ≡ 4000 }
{}

/// The replay of a snapshot is the stored part: a large file, parts, an upload, a marker and a key.
pub fn snapshots()
    ensures full { replay_of full ≡ Some (stored_part full) }
    ensures unjoined { replay_of before_finish ≡ Some (stored_part before_finish) }
{}
