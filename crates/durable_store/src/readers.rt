//! Contents that are read.

ghost use Rattle.std.specs.Prelude.{◌≡◌, ℕ, List, [], IfOk, take, drop};
ghost use Rattle.stored_contents.specs.Held.{with_read};
ghost use Rattle.b2_model.specs.State.{State};
ghost use Rattle.durable_store.specs.Store.{Came, IsStore, Read};

use crate::store::Store;
use b2_base::{ConnNum, Memory, Or};
use disk_model::{Disk, DiskFault};
use std::alloc::Global;

impl Store {
    /// The bytes that are read on the connection, from a place on and at most so many.
    pub fn read_out<D: Disk>(
        &self,
        alloc: Global,
        disk: &mut D,
        c: ConnNum,
        from: u64,
        most: usize,
    ) -> Result<Vec<u8>, Or<DiskFault>>
        ensures bytes { (M : State (List ℕ)) (came : Came) (read : Read)
            → IsStore self.now (D.state disk.old) M came read
            → IfOk result (λ bytes. bytes.items ≡ take most (drop from (read c))) }
        ensures store { (M : State (List ℕ)) (came : Came) (read : Read)
            → IsStore self.now (D.state disk.old) M came read
            → IsStore self.now (D.state disk.new) M came read }
    {
        let bytes = self
            .contents
            .read_out(alloc, disk, c.get() as u64, from, most)?;
        Ok(bytes)
    }

    /// Nothing is read on the connection any longer.
    pub fn finish_out<D: Disk>(self, disk: &D, c: ConnNum) -> Result<Store, Memory>
        ensures { IfOk result (λ s. (M : State (List ℕ)) (came : Came) (read : Read)
            → IsStore self (D.state disk.now) M came read
            → IsStore s (D.state disk.now) M came (with_read read c [])) }
    {
        let Store { core, mut contents } = self;
        contents.end_reading(disk, c.get() as u64)?;
        Ok(Store { core, contents })
    }
}
