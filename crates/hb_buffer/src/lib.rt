//! A straight buffer of a fixed size: of it are what a connection reads and writes, and the two ways of a tunnel.
#![tactic(auto)]

mod buffer;

pub use buffer::Buffer;
