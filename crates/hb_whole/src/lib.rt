//! The whole proxy in code: its link to the control plane, its inbound links with their tunnels, its plain links, and the notes
//! that wait to be taken. It meets what the event loop needs of a node, for every run of the machine of hb_proxy.
#![tactic(auto)]

mod owner;
mod proxy;
mod queue;
mod side;

pub use proxy::Proxy;
pub use side::Applied;
