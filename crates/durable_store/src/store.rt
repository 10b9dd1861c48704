//! The store, and what records make of it.

ghost use Rattle.std.specs.Prelude.{◌≡◌, ◌++◌, ◌≤◌, ◌^◌, List, true, IfOk};
ghost use Rattle.b2_base.specs.declared.extent.Extent.{Extent as Place};
ghost use Rattle.b2_model.specs.Changes.{after_record, state_of_settings};
ghost use Rattle.b2_base.specs.declared.numbers.TheConstants.{LAST_VERSION};
ghost use Rattle.b2_model.specs.Run.{with_daily_pass};
ghost use Rattle.b2_model.specs.Stored.{applies_change};
ghost use Rattle.sound_states.specs.Sound.{IsFitChange};
ghost use Rattle.contents_agree.specs.ContentsOf.{brought, contents_of};
ghost use Rattle.stored_contents.specs.Held.{Holding, IsHeld};
ghost use Rattle.disk_model.specs.declared.area.DiskImage.{DiskImage};
ghost use Rattle.durable_store.specs.Owned.{owning_with, Keeps};
ghost use Rattle.durable_store.specs.Store.{IsStore, none_came, none_read};

use b2_base::{Memory, Moment, Settings};
use b2_types::{ChangeOf, Record};
use core_records::{Applied, apply};
use core_state::Core;
use disk_model::Disk;
use std::alloc::Global;
use stored_contents::Contents;

/// How many milliseconds a day has.
const DAY: u64 = 86_400_000;

/// A store. Its calls take it and give it back, so that after an `Err` it is gone.
#[derive(Drop)]
pub struct Store {
    pub(crate) core: Core,
    pub(crate) contents: Contents,
}

/// The store after a record that applies. What it brings is owned, and what it gives up goes back.
pub(crate) fn written<D: Disk>(
    alloc: Global,
    disk: &D,
    core: Core,
    contents: Contents,
    entry: Record,
) -> Result<Store, Memory>
    requires fit { IsFitChange entry.change }
    requires applies { applies_change core entry.change ≡ true }
    ensures state { IfOk result (λ s. s.core ≡ after_record core entry) }
    ensures held { (h : Holding) (others : List Place)
        → h.owned ≡ others ++ (brought entry.change ++ contents_of core)
        → IsHeld contents (D.state disk.now) h → IfOk result
        (λ s. IsHeld s.contents (D.state disk.now) (owning_with others s.core h)) }
{
    core.is_sound();
    let mut contents = contents;
    match apply(alloc, core, entry)? {
        Applied::Done(core, freed) => {
            contents.release(disk, freed.get())?;
            Ok(Store { core, contents })
        }
        Applied::CannotApply(_) => unreachable!(),
    }
}

impl Store {
    /// The store that settings begin, over a disk of whose area of contents nothing is in use yet.
    pub fn new<D: Disk>(
        alloc: Global,
        disk: &D,
        settings: Settings,
        t: Moment,
    ) -> Result<Store, Memory>
        requires last { settings.last_version ≤ LAST_VERSION }
        requires area { settings.area_end ≤ 2 ^ 62 }
        ensures { IfOk result (λ s. (i : DiskImage) → (D.state disk.now).reads i
            → IsStore s (D.state disk.now) (state_of_settings settings t) none_came none_read) }
    {
        let limit = settings.area_end;
        let core = Core::new(alloc, settings, t)?;
        let contents = Contents::new(alloc, disk, limit)?;
        Ok(Store { core, contents })
    }

    /// The store at the first step of a day is one after a pass.
    pub(crate) fn with_daily_pass<D: Disk>(
        self,
        alloc: Global,
        disk: &D,
        t: Moment,
    ) -> Result<Store, Memory>
        ensures state { IfOk result (λ s. s.core ≡ with_daily_pass self.core t) }
        ensures held { IfOk result (Keeps (D.state disk.now) self) }
    {
        if t.get() / DAY <= self.core.pass_day() {
            return Ok(self);
        }
        let pass = Record {
            at: t,
            change: ChangeOf::Pass,
        };
        let store = written(alloc, disk, self.core, self.contents, pass)?;
        Ok(store)
    }
}
