//! A captured link in code, of the plain door or of the outbound one: its front header, and the bytes between it and its upstream. Each
//! call meets the machine of hb_captured: for each run of the link that it showed, it shows the run with what it was told, and what
//! follows from that by itself.
#![tactic(auto)]

mod acts;
mod aim;
mod answer;
mod ends;
mod fronting;
pub mod laws;
mod link;
mod moving;
mod relay;
mod rings;
mod routes;
mod stage;
mod streamed;
mod upstream;

pub use aim::Aim;
pub use relay::Relay;
pub use routes::Routes;
