//! The world of real sockets, over readiness that the system tells once for each change.
#![tactic(auto)]

mod doors;
mod log;
mod mio_world;
mod reason;
mod socket;
mod sockets;
mod stop;
mod watch;

pub use doors::address_of;
pub use log::Log;
pub use mio_world::MioWorld;
pub use reason::reason_of;
