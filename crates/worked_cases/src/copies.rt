//! Copies as files and as parts.

ghost use Rattle.std.specs.Prelude.{◌≡◌, [], ◌∷◌, None, Some, codes, map};
ghost use Rattle.rule_table.specs.declared.cap.Cap.TheVariants.{ReadFiles, WriteFiles};
ghost use Rattle.rule_table.specs.declared.fault.FaultKind.TheVariants.{P7, P9, NoFile, NoBucket, NotLarge, Range, LongCopy};
ghost use Rattle.b2_types.specs.declared.call.ByteRange.TheVariants.{From};
ghost use Rattle.b2_types.specs.Fault.{plain};
ghost use Rattle.worked_rows.specs.Store.{contents_in, digests_in, numbers_in, part_contents_in, part_numbers_in, stamps_in};
ghost use Rattle.worked_rows.specs.Uploads.{abc, digest_of_abc};
ghost use Rattle.worked_cases.specs.Copies.{source, copy_of, copy_to, whole, second_byte, copy_refused, refused_to, long_copy, long_refused, last_length, part_copy, part_refused};

/// A copy is a new version of the moment of the call, with the bytes that were asked for.
pub fn copies_as_files()
    ensures nums { numbers_in whole.state ≡ 1 ∷ 2 ∷ [] }
    ensures names { map (λ v. v.name) whole.state.versions ≡ codes "a.txt" ∷ codes "b.txt" ∷ [] }
    ensures stamps { stamps_in whole.state ≡ 2000 ∷ 3000 ∷ [] }
    ensures contents { contents_in whole.state ≡ (abc ∷ []) ∷ (abc ∷ []) ∷ [] }
    ensures digests { digests_in whole.state ≡ digest_of_abc ∷ digest_of_abc ∷ [] }
    ensures range { contents_in second_byte.state ≡ (abc ∷ []) ∷ ((98 ∷ []) ∷ []) ∷ [] }
{}

/// A copy wants what a download and an upload want, and bytes to copy.
pub fn refused_copies()
    ensures caps { refused_to (WriteFiles ∷ []) (copy_of 1 None) ≡ Some (plain P7) }
    ensures both { refused_to (WriteFiles ∷ ReadFiles ∷ []) (copy_of 1 None) ≡ None }
    ensures bucket { refused_to (WriteFiles ∷ ReadFiles ∷ []) (copy_to 2) ≡ Some (plain P9) }
    ensures no_bucket { copy_refused (copy_to 3) ≡ Some (plain NoBucket) }
    ensures marker { copy_refused (copy_of 2 None) ≡ Some (plain NoFile) }
    ensures started { copy_refused (copy_of 4 None) ≡ Some (plain NoFile) }
    ensures absent { copy_refused (copy_of 5 None) ≡ Some (plain NoFile) }
    ensures empty { copy_refused (copy_of 3 (Some (From 0))) ≡ Some (plain Range) }
    ensures empty_whole { copy_refused (copy_of 3 None) ≡ None }
{}

/// A copy has at most 5,000,000,000 bytes.
pub fn long_copies()
    ensures most { last_length (long_copy 2500000000) ≡ Some (5000000000 ∷ []) }
    ensures more { long_refused 2500000001 ≡ Some (plain LongCopy) }
{}

/// A copy as a part is a part of a start.
pub fn copies_as_parts()
    ensures numbers { part_numbers_in part_copy.state ≡ [] ∷ [] ∷ [] ∷ (2 ∷ []) ∷ [] }
    ensures contents { part_contents_in part_copy.state ≡ [] ∷ [] ∷ [] ∷ (abc ∷ []) ∷ [] }
    ensures large { part_refused 1 3 None ≡ Some (plain NotLarge) }
    ensures file { part_refused 1 5 None ≡ Some (plain NoFile) }
    ensures source { part_refused 2 4 None ≡ Some (plain NoFile) }
    ensures range { part_refused 1 4 (Some (From 3)) ≡ Some (plain Range) }
{}
