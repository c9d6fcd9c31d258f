//! The flow-control windows of one HTTP/2 connection and its streams, in both directions (RFC 9113 sections 5.2
//! and 6.9): what may be sent now, what a peer may send, and what is granted again.
#![tactic(auto)]

mod flow;
pub mod laws;
mod stream_windows;
mod window;

pub use flow::Flow;
