//! Listings with folders, and pages by number.

ghost use Rattle.std.specs.Prelude.{◌≡◌, [], ◌∷◌, None, Some, codes, map};
ghost use Rattle.worked_rows.specs.Listings.{first, second, all_versions, all_rows, from_number, starts_page};

/// A folder stands for its names, a hidden name is left out, and a start hides no upload.
pub fn listing_with_folders()
    ensures first { first ≡ ((codes "a.txt", 3) ∷ (codes "d/", 0) ∷ [], Some (codes "s")) }
    ensures second { second ≡ ((codes "s", 6) ∷ (codes "z", 1) ∷ [], None) }
{}

/// All versions by name, the newest of a name first; a page from a number; starts by number.
pub fn listing_of_versions()
    ensures all { all_versions ≡ (all_rows, None) }
    ensures from { from_number ≡ ((codes "s", 6) ∷ [], Some (codes "z")) }
    ensures unfinished { map (λ v. v.num) starts_page.rows ≡ 7 ∷ [] }
{}
