//! The state of a run, which a thread of its own tells over HTTP: what the run counts, and what is seen of its links.
#![tactic(auto)]

mod counts;
mod desk;
mod guest;
mod metrics;
mod seen;
mod state;
mod status;
mod watch;
mod watched_world;

pub use counts::Counts;
pub use seen::Sight;
pub use status::{Lobby, Status};
pub use watch::Watch;
pub use watched_world::WatchedWorld;
