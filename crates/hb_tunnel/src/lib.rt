//! One tunnel: the bytes that wait on each of its two ways, in rings of fixed sizes, and which of its ways have ended.
#![tactic(auto)]

pub mod laws;
mod phase;
mod ring;
mod tunnel;
mod turn;

pub use phase::Phase;
pub use ring::Ring;
pub use tunnel::{DOWN_SIZE, Tunnel, UP_SIZE};
pub use turn::Turn;
