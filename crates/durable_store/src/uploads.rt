//! Uploads: they begin, their bytes come, and they are lost.

ghost use Rattle.std.specs.Prelude.{◌≡◌, ℕ, nat_eq, List, None, IfOk};
ghost use Rattle.std.specs.Map.{update};
ghost use Rattle.std.specs.Option.{option_copied};
ghost use Rattle.b2_model.specs.State.{State};
ghost use Rattle.b2_model.specs.Run.{Progress, loses};
ghost use Rattle.durable_store.specs.Store.{Came, IsAfter, IsStore, Read};
ghost use Rattle.durable_store.specs.Uploads.{IsBegun, with_more};

use crate::lengths::content_length;
use crate::moments::moment_at;
use crate::store::Store;
use b2_base::{ConnNum, Memory, Or};
use b2_types::{Fault, UploadCall};
use core_uploads::{upload_begin, upload_lost};
use disk_model::{Disk, DiskFault};
use extent_space::AreaEnd;
use std::alloc::Global;
use stored_contents::StoreFault;

fn no_room(error: Or<AreaEnd>) -> Or<StoreFault> {
    match error {
        Or::Memory => Or::Memory,
        Or::Fault(_) => Or::Fault(StoreFault::AreaEnd),
    }
}

impl Store {
    /// An upload begins on a connection: the store after it, and the refusal. Where one is under way on
    /// the connection nothing is done.
    pub fn begin<D: Disk>(
        self,
        alloc: Global,
        disk: &D,
        reading: u64,
        c: ConnNum,
        token: Option<&[u8]>,
        upload: UploadCall,
    ) -> Result<(Store, Option<Fault>), Or<StoreFault>>
        ensures { IfOk result (λ r. (P : Progress (List ℕ)) (came : Came) (read : Read)
            → IsStore self (D.state disk.now) P.state came read
            → IsBegun r.0 (D.state disk.now) P reading c (option_copied token.entry) upload came read
            r.1) }
    {
        if self.core.flight(c).is_some() {
            return Ok((self, None));
        }
        let t = moment_at(&self.core, reading);
        let Store { core, mut contents } = self.with_daily_pass(alloc, disk, t)?;
        let len = content_length(&upload);
        let (core, fault) = upload_begin(alloc, core, t, c, token, upload)?;
        if fault.is_some() {
            return Ok((Store { core, contents }, fault));
        }
        match contents.begin(alloc, disk, c.get() as u64, len) {
            Ok(()) => Ok((Store { core, contents }, None)),
            Err(error) => Err(no_room(error)),
        }
    }

    /// More bytes come of the body of the upload on the connection, where one is under way.
    pub fn piece<D: Disk>(
        self,
        disk: &mut D,
        c: ConnNum,
        bytes: &[u8],
    ) -> Result<Store, Or<DiskFault>>
        ensures { IfOk result (λ s. (M : State (List ℕ)) (came : Came) (read : Read)
            → IsStore self (D.state disk.old) M came read
            → IsStore s (D.state disk.new) M
            (update nat_eq came c (with_more bytes.now (came c))) read) }
    {
        let Store { core, mut contents } = self;
        contents.piece(disk, c.get() as u64, bytes)?;
        Ok(Store { core, contents })
    }

    /// The connection is lost, and with it the upload that is under way on it.
    pub fn lost<D: Disk>(
        self,
        alloc: Global,
        disk: &D,
        reading: u64,
        c: ConnNum,
    ) -> Result<Store, Memory>
        ensures { IfOk result (λ s. (P : Progress (List ℕ)) (came : Came) (read : Read)
            → IsStore self (D.state disk.now) P.state came read
            → IsAfter s (D.state disk.now) P (loses reading c) (update nat_eq came c None) read) }
    {
        if self.core.flight(c).is_none() {
            return Ok(self);
        }
        let t = moment_at(&self.core, reading);
        let Store { core, mut contents } = self.with_daily_pass(alloc, disk, t)?;
        let core = upload_lost(core, t, c);
        contents.lose(disk, c.get() as u64)?;
        Ok(Store { core, contents })
    }
}
