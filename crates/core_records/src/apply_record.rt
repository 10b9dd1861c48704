//! What a record makes of a state.

ghost use Rattle.std.specs.Prelude.{◌≡◌, ℕ, [], true, IfOk, option_and_then};
ghost use Rattle.b2_types.specs.declared.record.ChangeOf.TheVariants as change;
ghost use Rattle.b2_model.specs.Changes.{after_record};
ghost use Rattle.b2_model.specs.Policy.{items};
ghost use Rattle.b2_model.specs.Rows.{version_at};
ghost use Rattle.b2_model.specs.Stored.{applies_change};
ghost use Rattle.sound_states.specs.Sound.{IsFitChange};
ghost use Rattle.core_state.specs.GivenUp.{part_content};
ghost use Rattle.core_records.specs.Applied.{IsApplied};
ghost use Rattle.core_records.specs.GivenUp.{AreGivenUp, held_at};

use crate::applying::applies;
use crate::lifecycle::pass;
use b2_base::{BucketNum, Extent, KeyNum, List, Memory, Moment};
use b2_types::{ChangeOf, Part, PartOf, Record, VersionId};
use core_state::{Core, contents_in};
use std::alloc::Global;

/// What a record comes to.
#[derive(Drop)]
pub enum Applied {
    /// The state after the record, and the extents that it gives up.
    Done(Core, List<Extent>),
    /// The record doesn't apply: this is the state as it was.
    CannotApply(Core),
}

// The state after a record that gives nothing up.
fn kept(alloc: Global, core: Core) -> (Core, List<Extent>)
    ensures state { result.0 ≡ core }
    ensures freed { result.1 ≡ [] }
{
    (core, List::of(Vec::new(alloc)))
}

fn listed(alloc: Global, piece: Option<Extent>) -> Result<List<Extent>, Memory>
    ensures { IfOk result (λ pieces. pieces ≡ items piece) }
{
    let mut pieces = Vec::new(alloc);
    if let Some(piece) = piece {
        pieces.push(piece)?;
    }
    Ok(List::of(pieces))
}

// The state after the record of a part, and what it gives up.
fn with_part(
    alloc: Global,
    core: Core,
    id: VersionId,
    part: Part,
) -> Result<(Core, List<Extent>), Memory>
    requires applies { applies_change core
        (change.PartPut id part.number part.content part.mark part.digest) ≡ true }
    ensures state { IfOk result (λ made. made.0 ≡ after_record core (record {
      at = part.stamp;
      change = change.PartPut id part.number part.content part.mark part.digest;
    })) }
    ensures freed { IfOk result (λ made. made.1
        ≡ items (option_and_then (part_content part.number) (version_at core id.bucket id.num))) }
{
    let (core, piece) = core.put_part(alloc, id, part)?;
    let freed = listed(alloc, piece)?;
    Ok((core, freed))
}

// The state after the record of a file that is cancelled, and what it gives up.
fn cancelled(
    alloc: Global,
    core: Core,
    t: Moment,
    id: VersionId,
) -> Result<(Core, List<Extent>), Memory>
    requires applies { applies_change core (change.Cancel id) ≡ true }
    ensures state { IfOk result (λ made. made.0
        ≡ after_record core (record { at = t; change = change.Cancel id })) }
    ensures freed { IfOk result (λ made. made.1 ≡ held_at id core) }
{
    let (core, version) = core.cancel(alloc, t, id);
    let freed = contents_in(alloc, &version)?;
    Ok((core, freed))
}

// The state after the record of a version that is dropped, and what it gives up.
fn dropped(
    alloc: Global,
    core: Core,
    t: Moment,
    id: VersionId,
) -> Result<(Core, List<Extent>), Memory>
    requires applies { applies_change core (change.VersionDrop id) ≡ true }
    ensures state { IfOk result (λ made. made.0
        ≡ after_record core (record { at = t; change = change.VersionDrop id })) }
    ensures freed { IfOk result (λ made. made.1 ≡ held_at id core) }
{
    let (core, version) = core.drop_version(alloc, t, id);
    let freed = contents_in(alloc, &version)?;
    Ok((core, freed))
}

// The number of what is dropped by the change, of a bucket or of a key. It is read by reference,
// and not moved out of the change.
fn dropped_number(of: &ChangeOf<Extent>) -> u32
    ensures bucket { (n : ℕ) → of.now ≡ change.BucketDrop n → result ≡ n }
    ensures key { (n : ℕ) → of.now ≡ change.KeyDrop n → result ≡ n }
{
    match of {
        ChangeOf::BucketDrop(num) => num.get(),
        ChangeOf::KeyDrop(num) => num.get(),
        _ => 0,
    }
}

fn without_bucket(core: Core, t: Moment, num: u32) -> Core
    requires { applies_change core (change.BucketDrop num) ≡ true }
    ensures { result ≡ after_record core (record { at = t; change = change.BucketDrop num }) }
{
    core.drop_bucket(t, BucketNum::new(num).unwrap())
}

fn without_key(core: Core, t: Moment, num: u32) -> Core
    requires { applies_change core (change.KeyDrop num) ≡ true }
    ensures { result ≡ after_record core (record { at = t; change = change.KeyDrop num }) }
{
    core.drop_key(t, KeyNum::new(num).unwrap())
}

// The state after a record that applies, and what it gives up. `num` is the number of what is
// dropped.
fn carried_out(
    alloc: Global,
    core: Core,
    written: Record,
    num: u32,
) -> Result<(Core, List<Extent>), Memory>
    requires bucket { (n : ℕ) → written.change ≡ change.BucketDrop n → num ≡ n }
    requires key { (n : ℕ) → written.change ≡ change.KeyDrop n → num ≡ n }
    requires fit { IsFitChange written.change }
    requires applies { applies_change core written.change ≡ true }
    ensures state { IfOk result (λ made. made.0 ≡ after_record core written) }
    ensures freed { IfOk result (λ made. AreGivenUp written.change core made.0 made.1) }
{
    let t = written.at;
    match written.change {
        ChangeOf::Settings(_) => unreachable!(),
        ChangeOf::Boot(boot) => Ok(kept(alloc, core.start_boot(alloc, t, boot))),
        ChangeOf::Pass => pass(alloc, core, t),
        ChangeOf::BucketMake(bucket) => Ok(kept(alloc, core.make_bucket(t, bucket)?)),
        ChangeOf::BucketUpdate(bucket) => Ok(kept(alloc, core.update_bucket(t, bucket))),
        ChangeOf::BucketDrop(_) => Ok(kept(alloc, without_bucket(core, t, num))),
        ChangeOf::Upload(new, content, mark, digest) => {
            let core = core.put_upload(alloc, t, new, content, mark, digest)?;
            Ok(kept(alloc, core))
        }
        ChangeOf::Hide(id, name) => Ok(kept(alloc, core.put_hide(alloc, t, id, name)?)),
        ChangeOf::Start(new) => Ok(kept(alloc, core.put_start(alloc, t, new)?)),
        ChangeOf::PartPut(id, number, content, mark, digest) => {
            let part = PartOf {
                number,
                content,
                mark,
                digest,
                stamp: t,
            };
            with_part(alloc, core, id, part)
        }
        ChangeOf::Finish(id, retention) => {
            Ok(kept(alloc, core.finish(alloc, t, id, retention)?))
        }
        ChangeOf::Cancel(id) => cancelled(alloc, core, t, id),
        ChangeOf::VersionDrop(id) => dropped(alloc, core, t, id),
        ChangeOf::Retain(id, retention) => {
            Ok(kept(alloc, core.put_retention(alloc, t, id, retention)?))
        }
        ChangeOf::Hold(id, hold) => Ok(kept(alloc, core.put_hold(alloc, t, id, hold)?)),
        ChangeOf::KeyMake(key) => Ok(kept(alloc, core.make_key(t, key)?)),
        ChangeOf::KeyDrop(_) => Ok(kept(alloc, without_key(core, t, num))),
        ChangeOf::SnapState(numbers) => Ok(kept(alloc, core.put_numbers(alloc, t, numbers))),
        ChangeOf::SnapLarge(new) => Ok(kept(alloc, core.put_large(alloc, t, new)?)),
        ChangeOf::SnapExtents(id, pieces) => {
            Ok(kept(alloc, core.put_extents(alloc, t, id, pieces.get())?))
        }
    }
}

/// What the record comes to. Where memory is wanting the state is spent: it is read from its
/// records again.
pub fn apply(alloc: Global, core: Core, written: Record) -> Result<Applied, Memory>
    requires fit { IsFitChange written.change }
    ensures { IfOk result (λ a. IsApplied core written a) }
{
    if !applies(alloc, &core, &written.change) {
        return Ok(Applied::CannotApply(core));
    }
    let num = dropped_number(&written.change);
    let (core, freed) = carried_out(alloc, core, written, num)?;
    Ok(Applied::Done(core, freed))
}
