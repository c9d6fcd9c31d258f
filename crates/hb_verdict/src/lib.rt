//! What a request on a stream of an inbound link is answered: the grammar of a request for a tunnel (RFC 9113 sections 8.2, 8.3
//! and 8.5), and which of them may be dialled for.
#![tactic(auto)]

mod fields;
pub mod laws;
mod request;
mod verdict;

pub use request::{Request, read_request};
pub use verdict::{Verdict, is_unspecified, leads_back, verdict_on};
