//! The streams of one HTTP/2 connection (RFC 9113 section 5.1): which are idle, open, half-closed or closed,
//! and what each frame on them is answered, for a server and for a client.
#![tactic(auto)]

mod answer;
mod fault;
pub mod laws;
mod numbers;
mod resets;
mod role;
mod sides;
mod state;
mod step;
mod streams;

pub use fault::{OpenFault, StreamFault};
pub use role::Role;
pub use sides::Sides;
pub use state::State;
pub use step::Step;
pub use streams::Streams;
