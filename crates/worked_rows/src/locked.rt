//! Object Lock: deletions and changes of retention.

ghost use Rattle.std.specs.Prelude.{◌≡◌, [], ◌∷◌, None, Some, true, false};
ghost use Rattle.rule_table.specs.declared.fault.FaultKind.TheVariants.{P11, P12, P13, P14, LockOff, BadUntil, NoFile};
ghost use Rattle.b2_types.specs.Fault.{plain};
ghost use Rattle.worked_rows.specs.Store.{master};
ghost use Rattle.worked_rows.specs.Locked.{governance, compliance, plain_token, deleted_by, refused_by, change_refused, until, strict_until, without_lock, other_name};

/// Governance gives way to who may bypass it and asks to, compliance and a hold to nobody.
pub fn deletion_under_locks()
    ensures governance { refused_by master None governance false ≡ Some (plain P13) }
    ensures bypass { refused_by plain_token (Some true) governance false ≡ Some (plain P14) }
    ensures master { (deleted_by master (Some true) governance false).state.versions ≡ [] }
    ensures compliance { refused_by master (Some true) compliance false ≡ Some (plain P12) }
    ensures by_plain { refused_by plain_token None compliance false ≡ Some (plain P12) }
    ensures hold { refused_by master (Some true) compliance true ≡ Some (plain P11) }
    ensures free { (deleted_by plain_token None None false).state.versions ≡ [] }
    ensures name { other_name ≡ Some (plain NoFile) }
{}

/// A retention may be made longer by all, and shorter as far as its mode gives way.
pub fn changes_of_retention()
    ensures longer { change_refused None governance (until 9001) ≡ None }
    ensures shorter { change_refused None governance (until 8999) ≡ Some (plain P13) }
    ensures bypass { change_refused (Some true) governance None ≡ Some (plain P14) }
    ensures compliance { change_refused None governance compliance ≡ None }
    ensures strict { change_refused None compliance (strict_until 8999) ≡ Some (plain P12) }
    ensures same { change_refused None compliance (strict_until 9000) ≡ None }
    ensures weaker { change_refused None compliance governance ≡ Some (plain P12) }
    ensures taken_off { change_refused (Some true) compliance None ≡ Some (plain P12) }
    ensures ended { change_refused None None (until 2000) ≡ Some (plain BadUntil) }
    ensures off { without_lock ≡ Some (plain LockOff) }
{}
