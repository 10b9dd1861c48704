//! Versions kept as the rows of an index, and what the machine says of them.
#![tactic(auto)]

mod laws;

pub use laws::{
    added_row, changed_row, empty_index, found_row, free_place, made_index, one_index, removed_row,
    rows_of_a_bucket,
};
