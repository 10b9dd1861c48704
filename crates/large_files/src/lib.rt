//! Large files: how they are started, get parts, are finished or cancelled, and how their parts
//! are listed.
#![tactic(auto)]

mod cancel;
mod finish;
mod page;
mod part;
mod refusal;
mod start;

pub use cancel::cancel_large_file;
pub use finish::finish_large_file;
pub use page::{PartsPage, parts_page};
pub use part::{may_put_part, put_part};
pub use refusal::{
    FinishFault, NotLarge, PartRefusal, fault_of_finish, fault_of_part, not_large_fault,
};
pub use start::start_large_file;
