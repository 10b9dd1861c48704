//! Versions in the order in which listings show them.
#![tactic(auto)]

mod index;
mod laws;
mod spot;
mod steps;
mod walk;

pub use index::{Index, first_spot};
pub use laws::{changed_in_place, one_order, others_stay, placed_among, same_spot};
pub use spot::Spot;
pub use steps::Steps;
pub use walk::Walk;
