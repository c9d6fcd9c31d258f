//! The words of a command as `clap` takes them. `specs` says what a command may declare, by which items words are spelled and which
//! items fit a command; the laws say that `clap` takes exactly the words that such items spell, and `read` reads these.
#![tactic(auto)]

mod clean;
pub mod laws;
mod part;
mod program;

pub use part::{Declaration, Part};
pub use program::read;
