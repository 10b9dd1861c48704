//! A store: the state in memory and the contents on a disk. Together they are the version machine over
//! bytes.
#![tactic(auto)]

mod copies;
mod ends;
mod lengths;
mod moments;
mod readers;
mod store;
mod uploads;

pub use store::Store;
pub use stored_contents::StoreFault;
