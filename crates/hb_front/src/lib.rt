//! The header in front of a connection (PROXY protocol version 2): read from bytes that may not all be there
//! yet, with each fault as early as it shows, and written.
#![tactic(auto)]

mod bytes;
mod family;
mod fault;
mod front;
mod identity;
pub mod laws;
mod writing;

pub use bytes::FrontBytes;
pub use fault::FrontFault;
pub use front::{Front, FrontRead, read_front};
pub use writing::{may_be_sent, put_front};
