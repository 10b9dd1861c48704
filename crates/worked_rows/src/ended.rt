//! What is judged when an upload begins, and again when it ends.

ghost use Rattle.std.specs.Prelude.{◌≡◌, [], ◌∷◌, None, Some, codes, true};
ghost use Rattle.rule_table.specs.declared.fault.FaultKind.TheVariants.{P1, P3, P4, P7, NoBucket, NoFile, NotLarge, LockOff, BadUntil, Cap};
ghost use Rattle.b2_types.specs.declared.upload.UploadCall.TheVariants.{File};
ghost use Rattle.b2_types.specs.Fault.{plain};
ghost use Rattle.b2_model.specs.UploadSteps.{begin};
ghost use Rattle.worked_rows.specs.Store.{refusal, governance_until, part_contents_in, part_numbers_in};
ghost use Rattle.worked_rows.specs.Uploads.{ready, given_abc, abc};
ghost use Rattle.worked_rows.specs.Ends.{begin_refused, file_refused, part_refused, bucket_gone, kept_until, lockable, ends_in, default_at_end, start_gone, of_key_1, without_key, last_number, without_numbers, with_start, part_token, part_end};

/// The path's bucket is the grant's; a lock wants a bucket with Object Lock, a retention a later
/// end.
pub fn begins()
    ensures none { (begin ready 1000 1 None (File given_abc)).fault ≡ Some (plain P1) }
    ensures path { file_refused ready (record given_abc { bucket = 2 }) ≡ Some (plain P3) }
    ensures kind { begin_refused with_start part_token (File given_abc) ≡ Some (plain P3) }
    ensures lacking { file_refused of_key_1 given_abc ≡ Some (plain P7) }
    ensures bucket { file_refused bucket_gone given_abc ≡ Some (plain NoBucket) }
    ensures off { file_refused ready (kept_until 5000) ≡ Some (plain LockOff) }
    ensures hold { file_refused ready (record given_abc { hold = true }) ≡ Some (plain LockOff) }
    ensures until { file_refused lockable (kept_until 1000) ≡ Some (plain BadUntil) }
    ensures cap { file_refused without_numbers given_abc ≡ Some (plain Cap) }
{}

/// All is judged again at the end: a key that was deleted, a lock that went, a number that is
/// taken.
pub fn ends()
    ensures key { refusal (ends_in without_key given_abc).answer ≡ Some (plain P4) }
    ensures none { (ends_in without_key given_abc).state.versions ≡ [] }
    ensures bucket { refusal (ends_in bucket_gone given_abc).answer ≡ Some (plain NoBucket) }
    ensures off { refusal (ends_in ready (kept_until 5000)).answer ≡ Some (plain LockOff) }
    ensures until { refusal (ends_in lockable (kept_until 2000)).answer ≡ Some (plain BadUntil) }
    ensures default { default_at_end given_abc ≡ governance_until 864002000 ∷ [] }
    ensures own { default_at_end (kept_until 5000) ≡ governance_until 5000 ∷ [] }
{}

/// The last number is given, and no other.
pub fn numbers_spent()
    ensures first { refusal (ends_in last_number given_abc).answer ≡ None }
    ensures second { refusal (ends_in without_numbers given_abc).answer ≡ Some (plain Cap) }
{}

/// A part URL is for one start, and what it takes is a part of it.
pub fn parts()
    ensures path { part_refused with_start part_token 2 ≡ Some (plain P3) }
    ensures large { part_refused with_start (codes "other") 2 ≡ Some (plain NotLarge) }
    ensures gone { part_refused start_gone part_token 1 ≡ Some (plain NoFile) }
    ensures numbers { part_numbers_in part_end.state ≡ (2 ∷ []) ∷ [] ∷ [] }
    ensures contents { part_contents_in part_end.state ≡ (abc ∷ []) ∷ [] ∷ [] }
{}
