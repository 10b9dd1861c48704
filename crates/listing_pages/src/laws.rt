//! What seeks may pass over.

ghost use Rattle.std.specs.Prelude.{◌≡◌, ◌≢◌, ◌<◌, ◌≤◌, ℕ, List, Option, None, Some, IsTrue, true, false, find, length, map};
ghost use Rattle.std.specs.Ordering.{is_gt, nat_cmp};
ghost use Rattle.std.specs.Cmp.Lexicographic.{slice_cmp};
ghost use Rattle.b2_model.specs.Pages.{folder, is_from, page_of, page_size, unfinished_page as machine_page};
ghost use Rattle.b2_model.specs.State.{State};
ghost use Rattle.listing_pages.specs.Unfinished.{AreStartsOf, asked_starts, shown_starts, start_row, starts_in};
ghost use Rattle.name_rules.specs.Folder.{begins_with, folder_in};
ghost use Rattle.b2_base.specs.declared.numbers.TheConstants.{LAST_VERSION};
ghost use Rattle.b2_types.specs.declared.version.VersionOf.{VersionOf as TheVersion};
ghost use Rattle.b2_model.specs.Current.{current_in};
ghost use Rattle.b2_model.specs.Kinds.{is_start};
ghost use Rattle.b2_model.specs.Rows.{is_before};
ghost use Rattle.version_index.specs.declared.spot.Spot.{Spot as Place};
ghost use Rattle.listing_pages.specs.NameRows.{StartsBefore};
ghost use Rattle.listing_pages.specs.Orders.{is_past};
ghost use Rattle.listing_pages.specs.Places.{after_folder, after_version, at_or_after};

/// One place stands after all names of a folder and before all later ones.
pub fn folder_in_one_seek<C>()
    ensures folder { (bucket : ℕ) (folder : List ℕ) (v : TheVersion C) → v.num ≤ LAST_VERSION
        → 0 < length folder
        → at_or_after (after_folder bucket folder) v ≡ is_past folder v.name }
    ensures version { (bucket : ℕ) (v w : TheVersion C) → w.num ≤ LAST_VERSION
        → at_or_after (after_version bucket v.name v.num) w ≡ is_before v w }
{}

/// The folder of a name is that of each name that begins with it.
pub fn names_of_a_folder()
    ensures { (prefix delimiter a b folder : List ℕ) → 0 < length delimiter
        → folder_in prefix delimiter a ≡ Some folder → IsTrue (begins_with folder b)
        → folder_in prefix delimiter b ≡ Some folder }
{}

/// A start inside of a folder drops it. A start that is in no folder drops none that holds a name after it.
pub fn starts_and_folders<C>()
    ensures inside { (prefix delimiter start f : List ℕ) (num : Option ℕ) → 0 < length delimiter
        → folder_in prefix delimiter start ≡ Some f → f ≢ start
        → is_from {C = C} start num (folder f) ≡ false }
    ensures above { (prefix delimiter start name f : List ℕ) (num : Option ℕ) → 0 < length delimiter
        → folder_in prefix delimiter start ≡ None → folder_in prefix delimiter name ≡ Some f
        → is_gt (slice_cmp nat_cmp start name) ≡ false
        → is_from {C = C} start num (folder f) ≡ true }
{}

/// The first row from a place on is the current version of its name, where it is no start and only starts
/// of its name stand before.
pub fn current_from_a_place<C>()
    ensures { (s : Place) (versions : List (TheVersion C)) (v : TheVersion C)
        → StartsBefore s versions → find (at_or_after s) versions ≡ Some v
        → is_start v.action ≡ false → current_in versions v.name ≡ Some v }
{}

/// The page of an index of starts is the machine's page of unfinished files.
pub fn unfinished_of_the_machine<C>()
    ensures { (M : State C) (bucket : ℕ) (prefix : List ℕ) (start : ℕ) (most : Option ℕ)
        → (rows : List (Place × List ℕ)) → AreStartsOf M.versions bucket rows
        → page_of (page_size 100 most) (map start_row (asked_starts prefix start (starts_in bucket rows)))
        ≡ shown_starts (machine_page M bucket prefix start most) }
{}
