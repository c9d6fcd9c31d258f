//! Workloads, services and authorization policies written in one canonical spelling: fields by rising number, each in its
//! shortest spelling, no default written.
#![tactic(auto)]

mod address;
mod authorization;
mod fields;
mod gateway;
mod ports;

pub use address::put_address;
pub use authorization::put_authorization;
