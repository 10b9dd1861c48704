//! The listing of the parts of a large file.

ghost use Rattle.std.specs.Prelude.{◌≡◌, IfOk, map, option_map};
ghost use Rattle.std.specs.Option.{option_copied};
ghost use Rattle.b2_types.specs.declared.call.Call.TheVariants as calls;
ghost use Rattle.b2_model.specs.Shown.{shown_part};
ghost use Rattle.new_versions.specs.Decided.{extent_len};
ghost use Rattle.core_decisions.specs.Decided.{IsDecision};

use b2_base::{BucketNum, List, Memory, Moment, VersionNum};
use b2_types::{AnswerOf, ListParts, Part, Shown, ShownPart};
use core_decisions::{Decision, plain_refusal, refusal};
use core_policy::{asker_of, file_for};
use core_state::Core;
use large_files::{not_large_fault, parts_page};
use rule_table::CallName;
use shown_values::show_part;
use std::alloc::Global;

// The parts of a large file as an answer shows them.
fn show_parts(
    alloc: Global,
    bucket: BucketNum,
    num: VersionNum,
    parts: &[Part],
) -> Result<List<ShownPart>, Memory>
    ensures { IfOk result (λ rows. rows ≡ map (shown_part extent_len bucket num) parts.now) }
{
    let mut rows = Vec::new(alloc);
    for part in parts {
        rows.push(show_part(bucket, num, part))?;
    }
    Ok(List::of(rows))
}

fn number_of(part: Option<&Part>) -> Option<u32>
    ensures { result ≡ option_map (λ p. p.number) (option_copied part.entry) }
{
    match part {
        Some(part) => Some(part.number),
        None => None,
    }
}

/// The parts of a large file that was started, from a number on.
pub fn list_parts(
    alloc: Global,
    core: &Core,
    t: Moment,
    token: Option<&[u8]>,
    call: &ListParts,
) -> Result<Decision, Memory>
    ensures { IfOk result (IsDecision core.now t (option_copied token.entry)
        (calls.ListParts call.now)) }
{
    let asker = asker_of(core, token);
    let name = CallName::ListParts;
    let version = match file_for(core, &asker, t, name, call.bucket, call.file) {
        Ok(version) => version,
        Err(kind) => return Ok(plain_refusal(kind)),
    };
    core.is_sound();
    let page = match parts_page(version, call.start, call.max) {
        Ok(page) => page,
        Err(refused) => return Ok(refusal(not_large_fault(refused))),
    };
    let rows = show_parts(alloc, version.bucket, version.num, page.rows)?;
    let shown = Shown::Parts(rows, number_of(page.next));
    Ok(Decision::Reply(AnswerOf::Json(shown)))
}
