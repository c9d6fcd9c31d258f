//! The commands: what they answer to words and input.
#![tactic(auto)]

mod answer;
mod asked;
mod command;
mod ended;
mod input;
mod judging;
pub mod laws;
mod making;
mod paging;
mod replaying;
pub mod run_laws;
mod serving;
mod stop;
mod telling;

pub use command::run;
