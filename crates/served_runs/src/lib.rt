//! For every list of events there is a run: whatever bytes come, they come to something.
#![tactic(auto)]

mod laws;

pub use laws::{bytes_come_to_something, every_list_has_a_run};
