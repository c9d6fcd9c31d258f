//! The header blocks of one HTTP/2 connection (RFC 9113 section 4.3): put together from the fragments of a HEADERS
//! frame and of the CONTINUATION frames behind it, and decoded by one decoder (RFC 7541).
#![tactic(auto)]

mod blocks;
mod fault;
pub mod laws;
mod whole;

pub use blocks::Blocks;
pub use fault::BlockFault;
pub use whole::Whole;
