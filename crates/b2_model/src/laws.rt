//! Laws of the machine over every state.

ghost use Rattle.std.specs.Prelude.{◌≡◌, List, Some};
ghost use Rattle.b2_types.specs.declared.fault.Fault.{Fault as TheFault};
ghost use Rattle.b2_model.specs.Checks.{Check, first_fault, IsFirstFailing};

/// The fault that is told is that of a rule that fails, and no rule before it does.
#[tactic(auto, using(crate::proofs::Steps::first_failing))]
pub fn first_failing_rule()
    ensures { (checks : List Check) (fault : TheFault) → first_fault checks ≡ Some fault
        → IsFirstFailing checks fault }
{}
