//! The tokens that a server gave since it was opened: which text is whose grant, when each ends, and which
//! upload is under way on it.
#![tactic(auto)]

mod grants;
mod held;
mod laws;
mod text;
mod tree;

pub use grants::{Busy, Grants, SerialEnd, Terms};
pub use held::Held;
pub use laws::uploads_and_tokens;
pub use text::token_text;
