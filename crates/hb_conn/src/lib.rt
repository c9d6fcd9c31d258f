//! One HTTP/2 connection in both roles (RFC 9113): the octets of a peer in, what happened out, and the frames that
//! the connection itself answers with.
#![tactic(auto)]

mod conn;
mod credit;
mod data;
mod ending;
mod faults;
mod found;
mod frames;
mod glance;
mod handling;
mod happening;
mod headers;
pub mod laws;
mod machine;
mod opening;
mod owing;
mod payload;
mod ping;
mod plain_encoder;
mod preface;
mod receiver;
mod resets;
mod settings;
mod sizes;
mod windows;

pub use conn::Conn;
pub use happening::Happening;
// The parts of a connection, of which laws of other crates speak.
pub use found::Found;
pub use glance::Glance;
pub use machine::{Core, Peer};
pub use plain_encoder::PlainEncoder;
pub use receiver::Receiver;
