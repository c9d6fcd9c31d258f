//! Workloads, services and authorization policies as Protocol Buffers records: a record is what the list of its
//! fields makes, and each fault is the first one in order of bytes.
#![tactic(auto)]

mod address;
mod authorization;
mod entries;
mod fault;
mod gateway;
mod network_address;
mod numbers;
mod port;
mod prefix;
mod rule;
mod service;
mod services;
mod string_match;
mod workload;

pub use address::{AddressRecord, read_address};
pub use authorization::{Action, Authorization, Reach, read_authorization};
pub use fault::RecordFault;
pub use gateway::{GatewayAddress, Waypoint};
pub use network_address::NetworkAddress;
pub use port::{Port, ServicePorts};
pub use rule::{Clause, Match, Rule};
pub use service::Service;
pub use string_match::StringMatch;
pub use workload::Workload;
