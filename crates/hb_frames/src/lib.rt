//! HTTP/2 frames (RFC 9113 sections 4 and 6): the frames of a stream of bytes, however it is cut into
//! pieces, with the faults that one frame alone can tell; and frames written into an output of fixed size.
#![tactic(auto)]

mod body;
mod fault;
mod frame;
mod head;
pub mod laws;
pub mod numbers;
pub mod octets;
mod output;
mod reader;
mod refusal;

pub use body::Body;
pub use fault::FrameFault;
pub use frame::Frame;
pub use output::Output;
pub use reader::FrameReader;
pub use refusal::Refusal;
