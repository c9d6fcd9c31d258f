//! A log of what a world's calls did, for whoever runs the program: a world around another one, which it leaves as it is.
#![tactic(auto)]

mod fact;
mod known;
pub mod laws;
mod line;
mod log;
mod logged_world;
mod teller;

pub use log::Log;
pub use logged_world::LoggedWorld;
