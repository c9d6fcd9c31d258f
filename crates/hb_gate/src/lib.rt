//! A link to a gateway in code: the front header that it writes, its connection, and the streams that carry tunnels of captured links. Each
//! call meets the machine of hb_gateway. What its tunnels hear is handed out, one at a time, for whoever keeps the captured links.
#![tactic(auto)]

mod acts;
mod asking;
mod classing;
mod ending;
mod entries;
mod front;
mod gate;
mod hearing;
pub mod laws;
mod looking;
mod phase;
mod putting;
mod request;
mod stream;

pub use gate::Gate;
pub use looking::{Look, Mail};
