//! Keys of several buckets, and a key for one second.

ghost use Rattle.std.specs.Prelude.{◌≡◌, None, Some, codes};
ghost use Rattle.rule_table.specs.declared.fault.FaultKind.TheVariants.{P6, P9, ManyBuckets};
ghost use Rattle.b2_types.specs.declared.kinds.ApiVersion.TheVariants.{V3, V4};
ghost use Rattle.b2_types.specs.Fault.{plain};
ghost use Rattle.worked_rows.specs.Store.{refusal};
ghost use Rattle.worked_rows.specs.Keys.{short};
ghost use Rattle.worked_cases.specs.Keys.{listing_refused, authorize_under, new_id, refused_at};

/// A key reaches each of its buckets and no other, and version 3 has one at most.
pub fn key_of_two_buckets()
    ensures first { listing_refused 1 ≡ None }
    ensures last { listing_refused 3 ≡ None }
    ensures other { listing_refused 2 ≡ Some (plain P9) }
    ensures third_version { refusal (authorize_under V3).answer ≡ Some (plain ManyBuckets) }
    ensures fourth_version { refusal (authorize_under V4).answer ≡ None }
{}

/// A key for a second is good for its thousand milliseconds.
pub fn seconds_of_a_key()
    ensures id { new_id short.answer ≡ Some (codes "001a1b2c3d4e5f60000000002") }
    ensures first { refused_at 1000 ≡ None }
    ensures last { refused_at 1999 ≡ None }
    ensures end_of { refused_at 2000 ≡ Some (plain P6) }
{}
