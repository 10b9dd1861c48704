//! The finish of a large file.

ghost use Rattle.std.specs.Prelude.{◌≡◌, Some, Option as TheOption, option_and_then};
ghost use Rattle.b2_base.specs.declared.extent.Extent.{Extent as TheExtent};
ghost use Rattle.b2_types.specs.declared.key.Key.{Key as TheKey};
ghost use Rattle.b2_model.specs.Checks.{first_fault};
ghost use Rattle.b2_model.specs.State.{State, bucket_at};
ghost use Rattle.b2_model.specs.Rows.{version_at};
ghost use Rattle.b2_model.specs.Finish.{finish_rules, first_differing, first_small, gap_from};
ghost use Rattle.b2_model.specs.AskLarge.{finish_large_file};
ghost use Rattle.new_versions.specs.Decided.{Decides, extent_len, refused};
ghost use Rattle.large_files.specs.Refusals.{finish_fault};

use crate::part::{id_of, is_large};
use crate::refusal::FinishFault;
use b2_base::Moment;
use b2_types::{ChangeOf, DefaultRetention, FinishCall, Part, Record, RecordOf, Version};
use object_lock::own_or_default;

// The least number from 1 on that is missing below a part's.
fn gap_in(parts: &[Part]) -> Option<u64>
    ensures { result ≡ gap_from 1 parts.now }
{
    let mut at = 0;
    'parts: while at < parts.len() {
        let number = at as u64 + 1;
        if u64::from(parts[at].number) != number {
            return Some(number);
        }
        at += 1;
    }
    None
}

// The number of the first part whose digest differs.
fn first_differing(parts: &[Part], digests: &[[u8; 20]]) -> Option<u32>
    ensures { result ≡ first_differing parts.now digests.now }
{
    let most = parts.len().min(digests.len());
    let mut at = 0;
    'parts: while at < most {
        if parts[at].digest != digests[at] {
            return Some(parts[at].number);
        }
        at += 1;
    }
    None
}

// The number of the first part, but the last, that has too few bytes.
fn first_small(parts: &[Part], least: u64) -> Option<u32>
    ensures { result ≡ first_small extent_len least parts.now }
{
    let mut at = 0;
    'parts: while at + 1 < parts.len() {
        let part = &parts[at];
        if part.content.len < least {
            return Some(part.number);
        }
        at += 1;
    }
    None
}

// The first rule of a finish that fails.
fn refusal(version: &Version, least: u64, digests: &[[u8; 20]]) -> Result<(), FinishFault>
    ensures { refused finish_fault result
        ≡ first_fault (finish_rules extent_len least digests.now version.now) }
{
    let parts = version.parts.get();
    if !is_large(version) {
        return Err(FinishFault::NotLarge);
    }
    if parts.is_empty() {
        return Err(FinishFault::NoParts);
    }
    if let Some(number) = gap_in(parts) {
        return Err(FinishFault::Gap(number));
    }
    if digests.len() != parts.len() {
        return Err(FinishFault::Count(parts.len() as u64));
    }
    if let Some(number) = first_differing(parts, digests) {
        return Err(FinishFault::Sha(number));
    }
    if let Some(number) = first_small(parts, least) {
        return Err(FinishFault::Small(number));
    }
    Ok(())
}

/// What a finish comes to, for the file that it names, where parts but the last have so many
/// bytes at least and the file's bucket has this default: its record, or the first rule of its
/// own that refuses it.
pub fn finish_large_file(
    version: &Version,
    default: Option<DefaultRetention>,
    least: u64,
    t: Moment,
    call: &FinishCall,
) -> Result<Record, FinishFault>
    ensures { (M : State TheExtent) (key : TheOption TheKey)
        → version_at M call.now.bucket call.now.file ≡ Some version.now
        → M.settings.part_min ≡ least
        → option_and_then (λ b. b.default) (bucket_at M version.now.bucket) ≡ default
        → Decides finish_fault t (finish_large_file extent_len M key t call.now) result }
{
    refusal(version, least, call.digests.get())?;
    Ok(RecordOf {
        at: t,
        change: ChangeOf::Finish(
            id_of(version),
            own_or_default(t, version.retention, default),
        ),
    })
}
