//! Bodies tell all but what no body tells.

ghost use Rattle.std.specs.Prelude.{◌≡◌, ℕ, List};
ghost use Rattle.b2_types.specs.declared.fault.Fault.{Fault as TheFault};
ghost use Rattle.b2_types.specs.declared.kinds.ApiVersion.TheVariants as version;
ghost use Rattle.b2_types.specs.declared.shown.Shown.{Shown as TheShown};
ghost use Rattle.b2_types.specs.declared.shown.ShownBucket.{ShownBucket as TheBucket};
ghost use Rattle.b2_types.specs.declared.shown.ShownDigest.{ShownDigest as TheDigest};
ghost use Rattle.b2_types.specs.declared.shown.ShownFile.{ShownFile as TheFile};
ghost use Rattle.b2_types.specs.declared.shown.ShownKey.{ShownKey as TheKey};
ghost use Rattle.b2_types.specs.declared.shown.ShownPart.{ShownPart as ThePart};
ghost use Rattle.wire_forms.specs.Body.{digest_text, part_json, file_json, bucket_json, fields, key_buckets, key_options, key_fields, refusal_json, body_of};
ghost use Rattle.wire_laws.specs.Told.{told_digest, told_part, told_file, told_key, told, first_and_more, IsDigest, IsPart, IsFile, IsKey, IsBucket, IsShown, IsRefusal, AreBuckets};

/// The text of a digest tells it and its mark, but for those that have no digest of their own.
#[tactic(auto, using(crate::proofs::Files::tells_digest, crate::proofs::Files::keeps_digest))]
pub fn told_digests()
    ensures tells { (a b : TheDigest) → IsDigest a → IsDigest b → digest_text a ≡ digest_text b
        → told_digest a ≡ told_digest b }
    ensures keeps { (d : TheDigest) → digest_text (told_digest d) ≡ digest_text d }
{}

/// The body of a part tells all of it but what its digest does not tell.
#[tactic(auto, using(crate::proofs::Files::tells_part, crate::proofs::Files::keeps_part))]
pub fn told_parts()
    ensures tells { (a b : ThePart) → IsPart a → IsPart b → part_json a ≡ part_json b
        → told_part a ≡ told_part b }
    ensures keeps { (p : ThePart) → part_json (told_part p) ≡ part_json p }
{}

/// The body of a row of files tells all of it but what its digest does not tell, and a folder's number.
#[tactic(auto, using(crate::proofs::Rows::tells_file, crate::proofs::Rows::keeps_file))]
pub fn told_files()
    ensures tells { (a b : TheFile) → IsFile a → IsFile b → file_json a ≡ file_json b
        → told_file a ≡ told_file b }
    ensures keeps { (f : TheFile) → file_json (told_file f) ≡ file_json f }
{}

/// Of the buckets that a key is limited to version 3 tells the first, and whether there are more;
/// version 4 tells all.
#[tactic(auto, using(crate::proofs::Buckets::tells_first, crate::proofs::Buckets::keeps_first, crate::proofs::Buckets::keeps_options, crate::proofs::Buckets::tells_all))]
pub fn told_buckets()
    ensures first { (xs ys : List ℕ) → AreBuckets xs → AreBuckets ys
        → key_buckets version.V3 xs ≡ key_buckets version.V3 ys
        → key_options version.V3 xs ≡ key_options version.V3 ys
        → first_and_more xs ≡ first_and_more ys }
    ensures keeps { (xs : List ℕ)
        → key_buckets version.V3 (first_and_more xs) ≡ key_buckets version.V3 xs }
    ensures options { (xs : List ℕ)
        → key_options version.V3 (first_and_more xs) ≡ key_options version.V3 xs }
    ensures all { (xs ys : List ℕ) → AreBuckets xs → AreBuckets ys
        → key_buckets version.V4 xs ≡ key_buckets version.V4 ys → xs ≡ ys }
{}

/// The body of a key tells all of it but what version 3 does not tell of its buckets.
#[tactic(auto, using(crate::proofs::Keys::tells_key, crate::proofs::Keys::keeps_key))]
pub fn told_keys()
    ensures tells { (k l : TheKey) → IsKey k → IsKey l → fields (key_fields k) ≡ fields (key_fields l)
        → told_key k ≡ told_key l }
    ensures keeps { (k : TheKey) → key_fields (told_key k) ≡ key_fields k }
{}

/// The body of a bucket tells all of it.
#[tactic(auto, using(crate::proofs::WholeBuckets::tells_bucket))]
pub fn told_whole_buckets()
    ensures { (a b : TheBucket) → IsBucket a → IsBucket b → bucket_json a ≡ bucket_json b → a ≡ b }
{}

/// The body of an answer tells which it is of all, and all of it but what no body tells.
#[tactic(auto, using(crate::proofs::Answers::keeps))]
pub fn told_answers()
    ensures tells { (a b : TheShown) → IsShown a → IsShown b → body_of a ≡ body_of b → told a ≡ told b }
    ensures keeps { (s : TheShown) → body_of (told s) ≡ body_of s }
{}

/// The body of a refusal tells its kind and what it tells beside it, and is that of no other answer.
#[tactic(auto, using(crate::proofs::Answers::refusal_apart))]
pub fn told_refusals()
    ensures tells { (f g : TheFault) → IsRefusal f → IsRefusal g → refusal_json f ≡ refusal_json g → f ≡ g }
    ensures apart { (f : TheFault) (s : TheShown) → refusal_json f ≡ body_of s → ⊥ }
{}
