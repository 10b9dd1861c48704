//! Bodies of calls on files and of uploads.

ghost use Rattle.std.specs.Prelude.{◌≡◌, None, codes};
ghost use Rattle.b2_types.specs.declared.upload.DigestRule.TheVariants as rule;
ghost use Rattle.worked_rows.specs.Uploads.{digest_of_abc, other_digest};
ghost use Rattle.worked_rows.specs.Ends.{part_end};
ghost use Rattle.worked_rows.specs.Large.{joined_file, cancellation};
ghost use Rattle.worked_rows.specs.Downloads.{hide};
ghost use Rattle.worked_rows.specs.Locked.{until};
ghost use Rattle.worked_cases.specs.Deletions.{delete_named, lock_store, hold_on};
ghost use Rattle.worked_answers.specs.Bodies.{body};
ghost use Rattle.worked_answers.specs.Files.{upload, info_by_limited, info_of_held, large_start, finish_with_gap, retention_to};
ghost use Rattle.worked_answers.specs.FileTexts.{upload_text, unverified_text, bad_digest_text, unread_text, kept_text, start_text, part_text, joined_text, gap_text, cancel_text, hide_text, deletion_text, hold_text, retention_text, no_retention_text};

/// An upload has the type of its name, and says where nobody vouched for its digest.
pub fn upload_bodies()
    ensures verified { body (upload (rule.Given digest_of_abc)).answer ≡ upload_text }
    ensures unverified { body (upload rule.NotVerified).answer ≡ unverified_text }
    ensures refused { body (upload (rule.Given other_digest)).answer ≡ bad_digest_text }
{}

/// Retention and hold are shown to who may read them.
pub fn info_bodies()
    ensures unread { body info_by_limited.answer ≡ unread_text }
    ensures held { body info_of_held.answer ≡ kept_text }
{}

/// A large file has no digest of its own.
pub fn large_file_bodies()
    ensures start { body large_start.answer ≡ start_text }
    ensures part { body part_end.answer ≡ part_text }
    ensures joined { body joined_file.answer ≡ joined_text }
    ensures gap { body finish_with_gap.answer ≡ gap_text }
    ensures cancel { body cancellation.answer ≡ cancel_text }
{}

/// A change tells the file and what is changed.
pub fn change_bodies()
    ensures hide { body (hide (codes "a.txt")).answer ≡ hide_text }
    ensures deletion { body (delete_named lock_store (codes "a")).answer ≡ deletion_text }
    ensures hold { body hold_on.answer ≡ hold_text }
    ensures retention { body (retention_to (until 9001)).answer ≡ retention_text }
    ensures no_retention { body (retention_to None).answer ≡ no_retention_text }
{}
