//! The listing of buckets.

ghost use Rattle.std.specs.Prelude.{◌≡◌, IfOk, map};
ghost use Rattle.std.specs.Option.{option_copied};
ghost use Rattle.b2_types.specs.declared.call.Call.TheVariants as calls;
ghost use Rattle.b2_model.specs.Shown.{shown_bucket};
ghost use Rattle.core_decisions.specs.Decided.{IsDecision};

use b2_base::{List, Memory, Moment, Settings};
use b2_types::{AnswerOf, Bucket, Key, ListBuckets, Shown, ShownBucket};
use bucket_state::buckets_list;
use core_decisions::{Decision, plain_refusal};
use core_policy::{asker_of, list_for};
use core_state::Core;
use rule_table::CallName;
use shown_values::show_bucket;
use std::alloc::Global;

// The buckets as the answer to a call of this key shows them.
fn show_buckets(
    alloc: Global,
    settings: &Settings,
    key: Option<&Key>,
    buckets: &[&Bucket],
) -> Result<List<ShownBucket>, Memory>
    ensures { IfOk result (λ rows. rows ≡ map (shown_bucket settings.now (option_copied key.entry))
        (map (λ b. b.now) buckets.now)) }
{
    let mut rows = Vec::new(alloc);
    for bucket in buckets {
        rows.push(show_bucket(alloc, settings, key, bucket)?)?;
    }
    Ok(List::of(rows))
}

/// The buckets that pass each filter that is given, in their order.
pub fn list_buckets(
    alloc: Global,
    core: &Core,
    t: Moment,
    token: Option<&[u8]>,
    call: &ListBuckets,
) -> Result<Decision, Memory>
    ensures { IfOk result (IsDecision core.now t (option_copied token.entry)
        (calls.ListBuckets call.now)) }
{
    let asker = asker_of(core, token);
    if let Err(kind) = list_for(core, &asker, t, CallName::ListBuckets, call) {
        return Ok(plain_refusal(kind));
    }
    let buckets = buckets_list(alloc, core.buckets(), call)?;
    let shown = show_buckets(alloc, core.settings(), asker.key, &buckets)?;
    Ok(Decision::Reply(AnswerOf::Json(Shown::Buckets(shown))))
}
