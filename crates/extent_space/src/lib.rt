//! Where contents stand in an area: what is taken stands at the front of the first hole that has
//! room for it, and else at the end.
#![tactic(auto)]

mod laws;
mod space;

pub use laws::{extents_in_use, one_room, room_after_a_run, taken_and_back};
pub use space::{AreaEnd, BLOCK, Space};
