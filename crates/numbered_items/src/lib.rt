//! Items that stand by their numbers in an ordered map, and are seen as the list in the order of the numbers.
#![tactic(auto)]

mod kept;
mod numbered;

pub use numbered::{HasNumber, Numbered};
