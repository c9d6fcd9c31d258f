//! The world of sockets as the proxy sees it, the trace of what its calls did, and the world of a
//! script's lines.
#![tactic(auto)]

mod act;
mod doors;
mod entry;
mod journal;
mod laws;
mod line;
mod links;
mod named;
mod ready;
mod script_link;
mod script_world;
mod trace;
mod turn;
mod waits;
mod world;

pub use act::Act;
pub use entry::{Entry, ReadyItem, Way, Woken};
pub use laws::{a_script_allows_nothing_done, a_trace_grows};
pub use line::Line;
pub use ready::Ready;
pub use script_world::ScriptWorld;
pub use world::{Born, Finished, Glanced, Listened, Looked, Read, Waited, World, Wrote};
