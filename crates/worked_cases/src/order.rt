//! The order of refusals.

ghost use Rattle.std.specs.Prelude.{◌≡◌, None, Some, codes};
ghost use Rattle.rule_table.specs.declared.fault.FaultKind.TheVariants.{P1, P2, P3, P4, P5, P6, P7, P8, P9, P10, NoBucket, NoFile};
ghost use Rattle.b2_types.specs.Fault.{plain};
ghost use Rattle.worked_cases.specs.Order.{crowd, fault_of, fault_of_good, names_of, names_of_first, keys_of_other, buckets_of_other, hide, without_buckets};

/// A token is judged by its text, its kind, its key, its end and the end of its key, in this order.
pub fn order_of_token_rules()
    ensures no_token { fault_of crowd 1000 None keys_of_other ≡ Some (plain P1) }
    ensures unknown { fault_of crowd 1000 (Some (codes "none")) keys_of_other ≡ Some (plain P2) }
    ensures kind_key { fault_of crowd 1000 (Some (codes "lost")) keys_of_other ≡ Some (plain P3) }
    ensures kind_end { fault_of crowd 1000 (Some (codes "share")) keys_of_other ≡ Some (plain P3) }
    ensures key_gone { fault_of crowd 1000 (Some (codes "gone")) keys_of_other ≡ Some (plain P4) }
    ensures token_end { fault_of crowd 1000 (Some (codes "ended")) keys_of_other ≡ Some (plain P5) }
    ensures key_end { fault_of crowd 1000 (Some (codes "good")) keys_of_other ≡ Some (plain P6) }
{}

/// Then come the capability, the account, the bucket, what is not there, the name, and the rest.
pub fn order_of_call_rules()
    ensures capability { fault_of_good crowd keys_of_other ≡ Some (plain P7) }
    ensures account { fault_of_good crowd buckets_of_other ≡ Some (plain P8) }
    ensures bucket { fault_of_good crowd (names_of 2 (codes "l")) ≡ Some (plain P9) }
    ensures absent { fault_of_good without_buckets names_of_first ≡ Some (plain NoBucket) }
    ensures name { fault_of_good crowd (hide (codes "l")) ≡ Some (plain P10) }
    ensures own { fault_of_good crowd (hide (codes "logs/a")) ≡ Some (plain NoFile) }
{}
