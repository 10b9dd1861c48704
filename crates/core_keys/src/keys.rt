//! The calls that delete and list keys.

ghost use Rattle.std.specs.Prelude.{◌≡◌, IfOk};
ghost use Rattle.std.specs.Option.{option_copied};
ghost use Rattle.b2_types.specs.declared.call.Call.TheVariants as calls;
ghost use Rattle.core_decisions.specs.Decided.{IsDecision};

use crate::lookup::key_for;
use crate::pages::{next_id, show_keys, start_of};
use app_keys::{fault_of, keys_delete, keys_page};
use b2_base::{Memory, Moment};
use b2_types::{AnswerOf, ChangeOf, DeleteKey, ListKeys, RecordOf, Shown};
use core_decisions::{Decision, plain_refusal, refusal};
use core_policy::{account_for, asker_of};
use core_state::Core;
use rule_table::CallName;
use shown_values::show_key;
use std::alloc::Global;

/// Deletes a key.
pub fn delete_key(
    alloc: Global,
    core: &Core,
    t: Moment,
    token: Option<&[u8]>,
    call: &DeleteKey,
) -> Result<Decision, Memory>
    ensures { IfOk result (IsDecision core.now t (option_copied token.entry)
        (calls.DeleteKey call.now)) }
{
    let asker = asker_of(core, token);
    let key = match key_for(core, &asker, t, &call.key) {
        Ok(key) => key,
        Err(kind) => return Ok(plain_refusal(kind)),
    };
    let num = match keys_delete(key) {
        Ok(num) => num,
        Err(refused) => return Ok(refusal(fault_of(refused))),
    };
    let shown = show_key(alloc, call.version, core.settings(), key)?;
    let record = RecordOf {
        at: t,
        change: ChangeOf::KeyDrop(num),
    };
    Ok(Decision::Write(record, AnswerOf::Json(Shown::Key(shown))))
}

/// A page of the keys by number, without the master key.
pub fn list_keys(
    alloc: Global,
    core: &Core,
    t: Moment,
    token: Option<&[u8]>,
    call: &ListKeys,
) -> Result<Decision, Memory>
    ensures { IfOk result (IsDecision core.now t (option_copied token.entry)
        (calls.ListKeys call.now)) }
{
    core.is_sound();
    let asker = asker_of(core, token);
    if let Err(kind) = account_for(core, &asker, t, CallName::ListKeys, &call.account) {
        return Ok(plain_refusal(kind));
    }
    let start = start_of(call.start.as_ref());
    let page = keys_page(alloc, core.keys(), start, call.max)?;
    let rows = show_keys(alloc, call.version, core.settings(), &page.rows)?;
    let next = next_id(alloc, &core.settings().account, page.next)?;
    Ok(Decision::Reply(AnswerOf::Json(Shown::Keys(rows, next))))
}
