//! A disk over three files in a folder. It counts faults and tells nothing of itself.

ghost use Rattle.std.specs.Prelude.{◌≡◌, length, IfSome, IsErr};
ghost use Rattle.outside_traits.specs.Causes.{HasCause};
ghost use Rattle.disk_model.specs.Untold.{untold};

use disk_model::{Area, Disk};
use outside_traits::Failed;
use std::alloc::Global;
use std::fs::{File, OpenFile, OpenOptions};
use std::os::unix::fs::FileExt;

/// The files of a folder, one an area.
#[derive(Drop)]
pub struct FileDisk {
    alloc: Global,
    log0: File,
    log1: File,
    blobs: File,
    faults: u64,
}

fn file_in(rt: &HostRuntime, folder: &str, name: &str) -> Option<File> {
    let path = format!(in rt.alloc(); "{folder}/{name}").ok()?;
    OpenOptions::new()
        .read(true)
        .write(true)
        .create(true)
        .truncate(true)
        .open(rt, path.as_str())
        .ok()
}

impl FileDisk {
    /// Empty files in a folder.
    pub fn make(rt: &HostRuntime, folder: &str) -> Option<FileDisk> {
        Some(FileDisk {
            alloc: rt.alloc(),
            log0: file_in(rt, folder, "log0")?,
            log1: file_in(rt, folder, "log1")?,
            blobs: file_in(rt, folder, "blobs")?,
            faults: 0,
        })
    }

    fn file(&self, area: Area) -> &File {
        match area {
            Area::Log0 => &self.log0,
            Area::Log1 => &self.log1,
            Area::Blobs => &self.blobs,
        }
    }
}

impl FileDisk {
    // Counts a call that failed.
    fn failed<T>(&mut self) -> Result<T, Failed>
        ensures cause { HasCause self.old.faults self.new.faults result }
        ensures always { IsErr result }
    {
        self.faults = self.faults.saturating_add(1);
        Err(Failed)
    }

    // The bytes at a place.
    fn bytes(&self, area: Area, at: u64, len: usize) -> Option<Vec<u8>>
        ensures { IfSome result (λ bytes. length bytes.items ≡ len) }
    {
        let mut bytes = vec![in self.alloc; 0; len].ok()?;
        self.file(area).read_exact_at(&mut bytes, at).ok()?;
        Some(bytes)
    }
}

impl Disk for FileDisk {
    ghost state = { λ _. untold };

    ghost faults = { λ d. d.faults };

    fn len(&mut self, area: Area) -> Result<u64, Failed> {
        match self.file(area).metadata() {
            Ok(found) if found.len() <= 1 << 62 => Ok(found.len()),
            _ => self.failed(),
        }
    }

    fn read(&mut self, area: Area, at: u64, buf: &mut [u8]) -> Result<(), Failed> {
        let Some(bytes) = self.bytes(area, at, buf.len()) else {
            return self.failed();
        };
        buf.copy_from_slice(&bytes);
        Ok(())
    }

    fn write_at(&mut self, area: Area, at: u64, bytes: &[u8]) -> Result<(), Failed> {
        if self.file(area).write_all_at(bytes, at).is_err() {
            return self.failed();
        }
        Ok(())
    }

    fn cut(&mut self, area: Area, len: u64) -> Result<(), Failed> {
        if self.file(area).set_len(len).is_err() {
            return self.failed();
        }
        Ok(())
    }

    fn sync(&mut self, area: Area) -> Result<(), Failed> {
        if self.file(area).sync_data().is_err() {
            return self.failed();
        }
        Ok(())
    }
}
