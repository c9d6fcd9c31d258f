//! Delta discovery (Envoy's xDS protocol, "Incremental xDS"): responses are read, and requests written.
#![tactic(auto)]

mod kind;
mod laws;
mod request;
mod response;

pub use kind::Kind;
pub use laws::what_is_written_is_read;
pub use request::{NameVersion, put_answer, put_first};
pub use response::{LONGEST_MESSAGE, Resource, Response, ResponseFault, read_response};
