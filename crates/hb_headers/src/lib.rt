//! The headers of an HTTP/2 client: those that it sends, and the status that it gets.
#![tactic(auto)]

mod headers;
mod status;

pub use headers::{add, authority, header};
pub use status::status_of;
