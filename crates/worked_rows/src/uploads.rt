//! Uploads of small files.

ghost use Rattle.std.specs.Prelude.{◌≡◌, ◌++◌, [], ◌∷◌, None, Some, map};
ghost use Rattle.rule_table.specs.declared.fault.FaultKind.TheVariants.{BadDigest, Busy};
ghost use Rattle.b2_types.specs.declared.kinds.Mark.TheVariants.{Verified, Unverified};
ghost use Rattle.b2_types.specs.declared.upload.DigestRule.TheVariants as rule;
ghost use Rattle.b2_types.specs.Fault.{plain};
ghost use Rattle.worked_rows.specs.Store.{contents_in, digests_in, marks_in, numbers_in, stamps_in};
ghost use Rattle.worked_rows.specs.Uploads.{at_end, end_refused, unverified, small, abc, digits, first, second, after_loss, ended_with, read_as, body_abc, digest_of_abc, other_digest};

/// The version has the next number and the moment of the upload's end; a digest that differs in one
/// bit makes none.
pub fn small_upload()
    ensures content { contents_in small.state ≡ (abc ∷ []) ∷ [] }
    ensures num { numbers_in small.state ≡ 1 ∷ [] }
    ensures stamp { stamps_in small.state ≡ 2000 ∷ [] }
    ensures mark { marks_in small.state ≡ Verified ∷ [] }
    ensures next { small.state.next_version ≡ 2 }
    ensures flights { small.state.flights ≡ [] }
    ensures refused { end_refused (rule.Given other_digest) None ≡ Some (plain BadDigest) }
    ensures none { (ended_with (rule.Given other_digest) None).state.versions ≡ [] }
{}

/// The last 40 bytes are digits of the digest and no content; what isn't verified is marked so.
pub fn digest_at_end()
    ensures read { read_as rule.AtEnd (abc ++ digits) ≡ body_abc (Some digest_of_abc) }
    ensures no_digits { (read_as rule.NotVerified abc) ≡ body_abc None }
    ensures content { contents_in at_end.state ≡ (abc ∷ []) ∷ [] }
    ensures told { end_refused rule.AtEnd (Some other_digest) ≡ Some (plain BadDigest) }
    ensures none_told { end_refused rule.AtEnd None ≡ Some (plain BadDigest) }
    ensures mark { marks_in unverified.state ≡ Unverified ∷ [] }
    ensures digest { digests_in unverified.state ≡ digest_of_abc ∷ [] }
{}

/// A URL serves one upload at a time, and again when its connection is lost.
pub fn busy_upload_url()
    ensures first { first.fault ≡ None }
    ensures second { second.fault ≡ Some (plain Busy) }
    ensures flights { map (λ f. f.conn) second.state.flights ≡ 1 ∷ [] }
    ensures after { after_loss.fault ≡ None }
{}
