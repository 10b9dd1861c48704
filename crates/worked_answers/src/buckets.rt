//! Bodies of calls on buckets, and those that tell URLs.

ghost use Rattle.std.specs.Prelude.{◌≡◌, Some};
ghost use Rattle.worked_rows.specs.Buckets.{photos, again, updated_if};
ghost use Rattle.worked_answers.specs.Bodies.{body};
ghost use Rattle.worked_answers.specs.Buckets.{listing_of_full, listing_by_limited, upload_url, part_url, download_token};
ghost use Rattle.worked_answers.specs.BucketTexts.{bucket_text, conflict_text, taken_text, whole_text, unread_text, upload_url_text, part_url_text, download_token_text};

/// A bucket is shown whole, and a conflict with the revision that stands.
pub fn bucket_bodies()
    ensures new { body photos.answer ≡ bucket_text }
    ensures again { body again.answer ≡ taken_text }
    ensures conflict { body (updated_if (Some 1)).answer ≡ conflict_text }
{}

/// Object Lock is shown to who may read it.
pub fn list_bodies()
    ensures whole { body listing_of_full.answer ≡ whole_text }
    ensures unread { body listing_by_limited.answer ≡ unread_text }
{}

/// A token is told with what it is for.
pub fn url_bodies()
    ensures upload { body upload_url.answer ≡ upload_url_text }
    ensures part { body part_url.answer ≡ part_url_text }
    ensures download { body download_token.answer ≡ download_token_text }
{}
