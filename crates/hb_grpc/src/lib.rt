//! Messages of gRPC over HTTP/2 ("Length-Prefixed-Message"): the messages of a stream of bytes, however
//! it is cut into pieces, and the bytes of a message that is sent.
#![tactic(auto)]

mod fault;
mod framer;
mod front;
mod header;
pub mod laws;
mod writing;

pub use fault::GrpcFault;
pub use framer::{Fed, Framer};
pub use front::first_length;
pub use writing::put_message;
