//! An inbound link in code: its front header, its connection, and the tunnels on its streams. Each call meets the machine of
//! hb_inbound: for each run of the link that it showed, it shows the run with what it was told, and what follows from that by itself.
#![tactic(auto)]

mod acts;
mod answering;
mod asking;
mod classing;
mod ends;
mod fronting;
mod going;
mod hearing;
pub mod laws;
mod leaving;
mod link;
mod looking;
mod marking;
mod naming;
mod notes;
mod own;
mod phase;
mod putting;
mod refusing;
mod roused;
mod settling;
mod taking;
mod tunnel;
mod update;
mod ups;
mod upstream;

pub use link::Link;
pub use notes::Notes;
