//! The event loop over many links and three doors, for every world and every node.
#![tactic(auto)]

mod acts;
mod ending;
mod keep;
pub mod laws;
mod link;
mod listens;
mod node;
mod round;
mod run;
mod served;
mod service;
mod sums;
mod taken;
mod turns;
mod waits;
mod words;

pub use keep::Keep;
pub use node::Node;
pub use served::{ServeEnd, Served, Totals};
pub use service::serve;
pub use words::{Doors, ServeWords};
