//! The sizes of pages.

ghost use Rattle.std.specs.Prelude.{◌≡◌, None, Some};
ghost use Rattle.worked_cases.specs.Pages.{size, keys_shown, starts_shown};

/// A page has as many rows as are asked for, at most 1,000, and 100 where none or 0 are; of starts
/// 100 at most.
pub fn page_sizes()
    ensures absent { size None ≡ 100 }
    ensures zero { size (Some 0) ≡ 100 }
    ensures one { size (Some 1) ≡ 1 }
    ensures most { size (Some 1000) ≡ 1000 }
    ensures more { size (Some 1001) ≡ 1000 }
    ensures keys { keys_shown (Some 10000) ≡ 1000 }
    ensures starts { starts_shown (Some 1000) ≡ 100 }
    ensures keys_absent { keys_shown None ≡ 100 }
{}
