//! Downloads, ranges and hiding.

ghost use Rattle.std.specs.Prelude.{◌≡◌, [], ◌∷◌, None, Some, codes};
ghost use Rattle.rule_table.specs.declared.fault.FaultKind.TheVariants.{Range, NoFile, Hidden, P1, P3, P9, P10};
ghost use Rattle.b2_types.specs.declared.call.ByteRange.TheVariants.{Between, From, Last};
ghost use Rattle.b2_types.specs.Fault.{plain};
ghost use Rattle.worked_rows.specs.Store.{refusal, master, numbers_in};
ghost use Rattle.worked_rows.specs.Downloads.{holding, range_refused, share_refused, bad_name, span, public, range_sent, fault_of, by_name, by_id, hide, bad_path, other_bucket, listing, two_buckets};

/// Ranges are cut to the content, and one without a byte of it is refused.
pub fn ranges()
    ensures whole { range_sent None ≡ Some None }
    ensures one { range_sent (Some (Between 1 1)) ≡ span 1 1 }
    ensures last { range_sent (Some (Last 2)) ≡ span 1 2 }
    ensures more { range_sent (Some (Last 9)) ≡ span 0 3 }
    ensures cut { range_sent (Some (Between 2 9)) ≡ span 2 1 }
    ensures past { range_refused (From 3) ≡ Some (plain Range) }
    ensures none { range_refused (Last 0) ≡ Some (plain Range) }
{}

/// A public bucket asks for no token; a hidden name, a start and a marker are no files.
pub fn downloads_by_name_and_id()
    ensures public { fault_of public None (by_name (codes "a.txt") None) ≡ None }
    ensures by_id { fault_of public None (by_id 1) ≡ None }
    ensures token { fault_of holding None (by_name (codes "a.txt") None) ≡ Some (plain P1) }
    ensures hidden { fault_of holding master (by_name (codes "h") None) ≡ Some (plain NoFile) }
    ensures started { fault_of holding master (by_id 4) ≡ Some (plain NoFile) }
    ensures under { fault_of holding master (by_id 2) ≡ None }
    ensures path { fault_of public None (bad_path (codes "photos-1")) ≡ Some bad_name }
    ensures no_token { fault_of holding None (bad_path (codes "photos-1")) ≡ Some (plain P1) }
{}

/// A download token is for the names of its prefix, and for downloads by name.
pub fn download_tokens()
    ensures served { share_refused (by_name (codes "a.txt") None) ≡ None }
    ensures prefix { share_refused (by_name (codes "h") None) ≡ Some (plain P10) }
    ensures kind { share_refused (by_id 1) ≡ Some (plain P3) }
    ensures bucket { share_refused other_bucket ≡ Some (plain P9) }
    ensures listing { share_refused listing ≡ Some (plain P3) }
{}

/// A marker hides a name that a version stands for; a start alone is none.
pub fn hiding_names()
    ensures marker { numbers_in (hide (codes "a.txt")).state ≡ 1 ∷ 2 ∷ 3 ∷ 4 ∷ 5 ∷ [] }
    ensures hidden { refusal (hide (codes "h")).answer ≡ Some (plain Hidden) }
    ensures started { refusal (hide (codes "l")).answer ≡ Some (plain NoFile) }
{}

/// A file's number under another bucket's id names nothing, so none of a private bucket.
pub fn number_alone()
    ensures file { fault_of two_buckets None (by_id 5) ≡ Some (plain NoFile) }
{}
