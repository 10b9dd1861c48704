//! Laws of versions that are kept as the rows of an index.

ghost use Rattle.std.specs.Prelude.{◌≡◌, ◌≢◌, List, ℕ, None, Some, [], map, filter, not, if◌then◌else◌};
ghost use Rattle.std.specs.List.{Contains};
ghost use Rattle.b2_types.specs.declared.version.VersionOf.{VersionOf as TheVersion};
ghost use Rattle.b2_model.specs.Lists.{put_by};
ghost use Rattle.b2_model.specs.Plan.{id_of};
ghost use Rattle.b2_model.specs.Rows.{rows as machine_rows};
ghost use Rattle.b2_model.specs.State.{State};
ghost use Rattle.b2_model.specs.Version.{is_it};
ghost use Rattle.version_index.specs.declared.spot.Spot.{Spot as Place};
ghost use Rattle.version_index.specs.Rows.{AreAscending, is_spot, placed, value_at, without};
ghost use Rattle.index_rows.specs.OwnRows.{AreNumbered, AreOwn, AreRowsOf, HaveOwnNumbers, by_number, of_bucket, own_row, spot_of};

/// The rows of a bucket are those that the machine lists.
pub fn rows_of_a_bucket<C>()
    ensures { (M : State C) (rows : List (Place × TheVersion C)) (bucket : ℕ)
        → AreNumbered M.versions → AreRowsOf M.versions rows
        → of_bucket bucket rows ≡ machine_rows M bucket }
{}

/// An index without rows has no versions.
pub fn empty_index<C>()
    ensures { AreRowsOf {C = C} [] [] }
{}

/// Versions have one index.
pub fn one_index<C>()
    ensures { (versions : List (TheVersion C)) (rows others : List (Place × TheVersion C))
        → AreRowsOf versions rows → AreRowsOf versions others → rows ≡ others }
{}

/// Rows whose versions have numbers apart are the index of these versions by number.
pub fn made_index<C>()
    ensures rows { (rows : List (Place × TheVersion C)) → AreAscending rows → AreOwn rows
        → AreRowsOf (by_number rows) rows }
    ensures numbered { (rows : List (Place × TheVersion C)) → HaveOwnNumbers rows
        → AreNumbered (by_number rows) }
{}

/// A version stands at its own spot and nowhere else.
pub fn found_row<C>()
    ensures { (versions : List (TheVersion C)) (rows : List (Place × TheVersion C)) (v : TheVersion C)
        → AreRowsOf versions rows → Contains versions v → value_at (spot_of v) rows ≡ Some v }
{}

/// A place is free where no version has its number.
pub fn free_place<C>()
    ensures { (versions : List (TheVersion C)) (rows : List (Place × TheVersion C)) (s : Place)
        → AreRowsOf versions rows → ((w : TheVersion C) → Contains versions w → w.num ≢ s.num)
        → value_at s rows ≡ None }
{}

/// A version that comes in is a row that is placed.
pub fn added_row<C>()
    ensures { (versions : List (TheVersion C)) (rows : List (Place × TheVersion C)) (v : TheVersion C)
        → AreRowsOf versions rows → value_at (spot_of v) rows ≡ None
        → AreRowsOf (put_by (λ w. w.num) v versions) (placed (own_row v) rows) }
{}

/// A version that goes is a row that is taken away.
pub fn removed_row<C>()
    ensures { (versions : List (TheVersion C)) (rows : List (Place × TheVersion C)) (v : TheVersion C)
        → AreNumbered versions → AreRowsOf versions rows → Contains versions v
        → AreRowsOf (filter (λ w. not (is_it (id_of v) w)) versions) (without (spot_of v) rows) }
{}

/// A version that is changed is a row that is changed.
pub fn changed_row<C>()
    ensures { (versions : List (TheVersion C)) (rows : List (Place × TheVersion C)) (v : TheVersion C)
        → (f : TheVersion C → TheVersion C)
        → AreNumbered versions → AreRowsOf versions rows → Contains versions v
        → spot_of (f v) ≡ spot_of v
        → AreRowsOf
        (map (λ w. if is_it (id_of v) w then f w else w) versions)
        (map (λ r. if is_spot (spot_of v) r.0 then own_row (f v) else r) rows) }
{}
