//! Scripts: what happens on a server's connections, line by line, with the clock's reading at each
//! event and the random words; and what is shown of what was sent.
#![tactic(auto)]

mod laws;
mod line;
mod piece;
mod read;
mod reader;
mod script;
mod shown;

pub use laws::{one_first_wrong_line, one_reading};
pub use line::Said;
pub use read::read_script;
pub use script::{Script, ScriptClock, ScriptFault, ScriptLink, ScriptWords, Timed};
pub use shown::write_sent;
