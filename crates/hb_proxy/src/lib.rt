//! The whole proxy as a machine: its links to the control plane, its inbound links with their tunnels, and its plain links,
//! as a product. It has no code: `specs` says which point may come next, and what every run obeys.
#![tactic(auto)]

pub mod laws;
