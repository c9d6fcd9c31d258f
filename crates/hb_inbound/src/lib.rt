//! An inbound link as a machine: its front header, its connection, and the tunnels on its streams with their upstreams. It has no
//! code: `specs` says which entries may come and what happens by itself.
#![tactic(auto)]

pub mod laws;
