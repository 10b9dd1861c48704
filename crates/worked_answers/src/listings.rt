//! Bodies of listings.

ghost use Rattle.std.specs.Prelude.{◌≡◌, [], None, codes};
ghost use Rattle.worked_answers.specs.Bodies.{body};
ghost use Rattle.worked_answers.specs.Listings.{names, versions, starts, parts, slash};
ghost use Rattle.worked_answers.specs.ListingTexts.{names_text, folder_text, versions_text, folder_next_text, last_text, marker_text, starts_text, parts_text};

/// A row is a file or a folder, and so is the next.
pub fn names_bodies()
    ensures file { body (names []).answer ≡ names_text }
    ensures folder { body (names (codes "d/")).answer ≡ folder_text }
{}

/// The next is told by its name and its version, which a folder has not.
pub fn version_bodies()
    ensures version { body (versions (codes "s") None).answer ≡ versions_text }
    ensures folder { body (versions [] slash).answer ≡ folder_next_text }
    ensures last { body (versions (codes "z") None).answer ≡ last_text }
    ensures marker { body (versions (codes "h") None).answer ≡ marker_text }
{}

/// Starts and parts are told with the number of the next.
pub fn part_bodies()
    ensures starts { body starts.answer ≡ starts_text }
    ensures parts { body parts.answer ≡ parts_text }
{}
