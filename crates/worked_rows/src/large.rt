//! A large file from its parts.

ghost use Rattle.std.specs.Prelude.{◌≡◌, [], ◌∷◌, Some, map};
ghost use Rattle.rule_table.specs.declared.fault.FaultKind.TheVariants.{NotLarge, NoParts, Gap, Count, Sha, Small, NoFile};
ghost use Rattle.b2_types.specs.Fault.{plain, with_number};
ghost use Rattle.b2_types.specs.declared.kinds.Action.TheVariants.{Upload};
ghost use Rattle.worked_rows.specs.Store.{contents_in, governance_until, numbers_in, retentions_in, stamps_in};
ghost use Rattle.worked_rows.specs.Large.{fault_of, small_first, with_gap, first, ten, joined_file, replaced_digest, not_large, cancellation, after_cancel, other_bucket, parts_shown, by_default};

/// Parts become a file where they are numbered from 1 on without a gap, their digests are those that
/// are told, and each but the last is large enough; one that was sent again counts
/// as it was sent last.
pub fn large_file_from_parts()
    ensures gap { with_gap ≡ Some (with_number Gap 2) }
    ensures replaced { replaced_digest ≡ Some (with_number Sha 2) }
    ensures content { contents_in joined_file.state ≡ (ten 97 ∷ ten 98 ∷ ten 99 ∷ []) ∷ [] }
    ensures action { map (λ v. v.action) joined_file.state.versions ≡ Upload ∷ [] }
    ensures num { numbers_in joined_file.state ≡ 1 ∷ [] }
    ensures stamp { stamps_in joined_file.state ≡ 1000 ∷ [] }
    ensures parts { map (λ v. v.parts) joined_file.state.versions ≡ [] ∷ [] }
    ensures small { small_first ≡ Some (with_number Small 1) }
    ensures none { fault_of [] [] ≡ Some (plain NoParts) }
    ensures count { fault_of (first ∷ []) [] ≡ Some (with_number Count 1) }
    ensures large { not_large ≡ Some (plain NotLarge) }
{}

/// A start goes with its parts; a file is named by its bucket and its number.
pub fn cancelled_large_file()
    ensures gone { cancellation.state.versions ≡ [] }
    ensures number { cancellation.state.next_version ≡ 2 }
    ensures later { after_cancel ≡ Some (plain NoFile) }
    ensures other { other_bucket ≡ Some (plain NoFile) }
{}

/// A part that was sent again is one part, of its later moment.
pub fn part_sent_again()
    ensures { parts_shown ≡ (1, 1700) ∷ [] }
{}

/// A bucket's default counts from the finish.
pub fn default_at_the_finish()
    ensures { retentions_in by_default.state ≡ governance_until 86403000 ∷ [] }
{}
