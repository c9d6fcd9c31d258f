//! A captured link of the plain door or of the outbound one as a machine: its front header, its upstream, and the bytes between them. It
//! has no code: `specs` says which entries may come and what happens by itself.
#![tactic(auto)]

pub mod laws;
