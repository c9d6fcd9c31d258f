//! Which way a captured connection takes: through a gateway that takes HBONE, that of its target or of a waypoint in front of it, or
//! straight to an address; and how many connections each endpoint has open, by which one of several is chosen.
#![tactic(auto)]

mod answer;
mod endpoint;
pub mod laws;
mod opens;
mod ports;
mod routing;
mod waypoint;

pub use answer::{NoRoute, Route};
pub use opens::Opens;
pub use routing::route;
