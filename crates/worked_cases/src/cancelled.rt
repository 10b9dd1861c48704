//! Calls on a large file that was cancelled.

ghost use Rattle.std.specs.Prelude.{◌≡◌, Some, map};
ghost use Rattle.rule_table.specs.declared.fault.FaultKind.TheVariants.{NoFile};
ghost use Rattle.b2_types.specs.Fault.{plain};
ghost use Rattle.worked_cases.specs.Cancelled.{later_calls, refusals, begin_refused, end_refused};

/// No call finds it, and no part of it is taken.
pub fn calls_after_a_cancel()
    ensures calls { refusals ≡ map (λ c. Some (plain NoFile)) later_calls }
    ensures begins { begin_refused ≡ Some (plain NoFile) }
    ensures ends { end_refused ≡ Some (plain NoFile) }
{}
