//! The frames that one HTTP/2 connection owes on its streams, because the room for what waits to be written lacked
//! when they were asked for (RFC 9113 section 5.1).
#![tactic(auto)]

mod due;
pub mod laws;
mod owed;
mod put;
mod status;
mod stream_debt;

pub use due::Due;
pub use owed::Owed;
pub use put::put_due;
pub use status::Status;
