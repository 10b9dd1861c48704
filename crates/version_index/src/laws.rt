//! Laws of rows in listing order.

ghost use Rattle.std.specs.Prelude.{◌≡◌, ◌≢◌, List, ◌⊎◌, ◌↔◌, None, IsSome, IsTrue, map, if◌then◌else◌};
ghost use Rattle.std.specs.List.{Contains};
ghost use Rattle.version_index.specs.declared.spot.Spot.{Spot as Place};
ghost use Rattle.version_index.specs.Rows.{AreAscending, is_spot, placed, value_at, without};

/// Two spots are one exactly where they are equal.
pub fn same_spot()
    ensures { (s t : Place) → IsTrue (is_spot s t) ↔ (s ≡ t) }
{}

/// Rows in order are determined by which rows they are.
pub fn one_order<V>()
    ensures { (rows others : List (Place × V)) → AreAscending rows → AreAscending others
        → ((r : Place × V) → Contains rows r ↔ Contains others r) → rows ≡ others }
{}

/// A row that is put at its free place is there beside the others, in order.
pub fn placed_among<V>()
    ensures members { (row : Place × V) (rows : List (Place × V)) (r : Place × V)
        → Contains (placed row rows) r ↔ ((row ≡ r) ⊎ Contains rows r) }
    ensures order { (row : Place × V) (rows : List (Place × V))
        → AreAscending rows → value_at row.0 rows ≡ None → AreAscending (placed row rows) }
{}

/// The rows at other spots stay, in order.
pub fn others_stay<V>()
    ensures members { (s : Place) (rows : List (Place × V)) (r : Place × V)
        → Contains (without s rows) r ↔ (Contains rows r × (s ≢ r.0)) }
    ensures order { (s : Place) (rows : List (Place × V))
        → AreAscending rows → AreAscending (without s rows) }
{}

/// A row that is taken away and put back with another value is changed at its place.
pub fn changed_in_place<V>()
    ensures { (s : Place) (v : V) (rows : List (Place × V))
        → AreAscending rows → IsSome (value_at s rows)
        → placed (s, v) (without s rows) ≡ map (λ r. if is_spot s r.0 then (s, v) else r) rows }
{}
