//! The frames of one HTTP/2 connection that wait to be written (RFC 9113 sections 4.1 and 6.9): a DATA frame
//! of which no octet was written can be taken back, and a frame that has begun is finished.
#![tactic(auto)]

mod data_streams;
mod head;
pub mod laws;
mod outgoing;
mod queue;
mod unbegun;

pub use head::Head;
pub use outgoing::Outgoing;
pub use unbegun::Unbegun;
