//! Uploads at their edges.

ghost use Rattle.std.specs.Prelude.{◌≡◌, ◌++◌, [], ◌∷◌, None, Some};
ghost use Rattle.rule_table.specs.declared.fault.FaultKind.TheVariants.{Range, Small};
ghost use Rattle.b2_types.specs.declared.call.ByteRange.TheVariants.{Between, From, Last};
ghost use Rattle.b2_types.specs.declared.upload.DigestRule.TheVariants as rule;
ghost use Rattle.b2_types.specs.Fault.{plain, with_number};
ghost use Rattle.worked_rows.specs.Store.{contents_in};
ghost use Rattle.worked_rows.specs.Large.{ten};
ghost use Rattle.worked_rows.specs.Uploads.{abc, body_abc, digest_of_abc, read_as};
ghost use Rattle.worked_cases.specs.Uploads.{empty_file, empty_body, nothing_read, range_refused, sent_whole, upper_digits, nine, two_parts};

/// An upload may be empty; then no range has a byte of it.
pub fn empty_upload()
    ensures read { nothing_read ≡ empty_body }
    ensures content { contents_in empty_file.state ≡ ([] ∷ []) ∷ [] }
    ensures whole { sent_whole ≡ Some None }
    ensures between { range_refused (Between 0 0) ≡ Some (plain Range) }
    ensures from { range_refused (From 0) ≡ Some (plain Range) }
    ensures last { range_refused (Last 1) ≡ Some (plain Range) }
    ensures last_none { range_refused (Last 0) ≡ Some (plain Range) }
{}

/// The digits at the end of a body are of either case.
pub fn upper_case_digits()
    ensures { read_as rule.AtEnd (abc ++ upper_digits) ≡ body_abc (Some digest_of_abc) }
{}

/// Each part but the last has the least size; the part that has not is told.
pub fn parts_of_nine_bytes()
    ensures first { two_parts nine (ten 98) ≡ Some (with_number Small 1) }
    ensures last { two_parts (ten 97) nine ≡ None }
{}
