//! Deleting a key.

ghost use Rattle.std.specs.Prelude.{◌≡◌, Some, None, IfOk, OnOk, IfErr};
ghost use Rattle.b2_base.specs.declared.extent.Extent.{Extent as TheExtent};
ghost use Rattle.b2_types.specs.Fault.{plain};
ghost use Rattle.b2_types.specs.declared.kinds.ApiVersion.{ApiVersion as TheVersion};
ghost use Rattle.b2_types.specs.declared.record.ChangeOf.TheVariants.{KeyDrop};
ghost use Rattle.b2_model.specs.Checks.{first_fault};
ghost use Rattle.b2_model.specs.State.{State};
ghost use Rattle.b2_model.specs.AskKeys.{drop_key};
ghost use Rattle.app_keys.specs.Keys.{kind_of};

use crate::refusal::KeyRefusal;
use b2_base::KeyNum;
use b2_types::Key;

/// The number of the key that goes.
pub fn keys_delete(key: &Key) -> Result<KeyNum, KeyRefusal>
    ensures refused { IfErr result (λ r. (v : TheVersion) (M : State TheExtent)
        → first_fault (drop_key v M key.now).own ≡ Some (plain (kind_of r))) }
    ensures passed { OnOk result ((v : TheVersion) (M : State TheExtent)
        → first_fault (drop_key v M key.now).own ≡ None) }
    ensures change { IfOk result (λ num. (v : TheVersion) (M : State TheExtent)
        → (drop_key v M key.now).change ≡ Some (KeyDrop num)) }
{
    if key.num.get() == 0 {
        return Err(KeyRefusal::Master);
    }
    Ok(key.num)
}
