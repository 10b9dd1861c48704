//! A disk of three areas: what a read gives, what a crash may leave at each moment, and forms in
//! memory that tell both.
#![tactic(auto)]

mod area;
mod areas;
mod changes;
mod disk;
mod flat;
mod images;
mod memory;

pub use area::{Area, DiskImage};
pub use changes::{Change, Done};
pub use disk::{Disk, DiskFault, write_durably};
pub use flat::FlatDisk;
pub use memory::MemDisk;
