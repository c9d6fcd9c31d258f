//! The proxy as a machine over the entries of a trace, without code: what each entry makes of it, the laws of a trace, and
//! that every run of the machine obeys them. So far it has links to the control plane.
#![tactic(auto)]

mod act;
mod config;
pub mod laws;

pub use act::Act;
pub use config::{Limits, NodeConfig};
