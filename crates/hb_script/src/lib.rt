//! The text of a script of socket events: rows of JSON, read and written, and the lines that tell a trace.
#![tactic(auto)]

mod entry;
mod fault;
mod form;
mod laws;
mod script;
mod spelling;

pub use entry::{cause_string, put_entry};
pub use fault::{ScriptFault, ScriptWhy};
pub use laws::{lines_are_read_as_they_are_written, lines_that_are_read_can_be_written};
pub use script::read_script;
pub use spelling::{door_word, put_line};
