//! The kinds of the fields of a request's object, and the rows of the tables that read them.
#![tactic(auto)]

mod defaults;
mod info;
mod kinds;
mod lists;
mod offered;
mod reader;
mod retention;
mod rules;
mod texts;

pub use info::{info_at, optional_info};
pub use kinds::file_of;
pub use offered::{idle_encryption, idle_list, idle_value};
pub use reader::{
    FromJson, missing, needed, needed_number, needed_u32, optional, optional_number, optional_u32,
    wrong,
};
pub use retention::optional_retention;
pub use rules::optional_rules;
pub use texts::{TextRule, needed_choice, needed_text, optional_choice, optional_text};
