//! Pages of listings, found by seeks.
#![tactic(auto)]

mod ask;
mod folders;
mod laws;
mod page;
mod places;
mod unfinished;
mod versions;
mod visible;

pub use ask::Ask;
pub use laws::{
    current_from_a_place, folder_in_one_seek, names_of_a_folder, starts_and_folders,
    unfinished_of_the_machine,
};
pub use page::{Page, PageRow};
pub use unfinished::{start_place, unfinished_page};
pub use versions::versions_page;
pub use visible::names_page;
