//! The proxy as a state machine without sockets: what the world's calls did goes in; what is to be written, how much may be
//! read and which call is due come out. So far it has one link, to its control plane.
#![tactic(auto)]

mod headers;
mod inbox;
mod judge;
mod laws;
mod link;
mod node;
mod phase;
mod queue;
mod requests;

pub use judge::{Judge, NoJudge};
pub use laws::{all_is_put, balks_pass, reads_where_room, rests_where_none_is_due};
pub use node::Node;
