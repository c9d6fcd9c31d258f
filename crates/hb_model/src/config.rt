//! What a node is told of itself.

use hb_base::{Target, Text};
use hb_held::OwnDoors;

/// The most inbound links and links to gateways that may be open at a time, and the most tunnels; a plain link is one, from its birth.
#[derive(Clone, Copy, Drop)]
pub struct Limits {
    pub links: u64,
    pub tunnels: u64,
}

/// The identity of a node, and where its control plane is.
#[derive(Drop)]
pub struct NodeConfig {
    /// The id that its requests tell.
    pub id: Text,
    /// The control plane's address.
    pub discovery: Target,
    /// The network of the node.
    pub network: Text,
    /// The node's name: its workloads tell it.
    pub node: Text,
    /// Where its own doors listen. No tunnel is dialled there.
    pub doors: OwnDoors,
    /// The port at which a workload's gateway takes HBONE.
    pub hbone_port: u16,
    /// How many links and tunnels there may be.
    pub limits: Limits,
}
