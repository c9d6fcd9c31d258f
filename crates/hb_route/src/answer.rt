//! The way of a connection, or why it has none.

ghost use Rattle.std.specs.Prelude.{◌≡◌};
ghost use Rattle.hb_route.specs.Answer.{number_of, text_of};

use hb_base::{Target, Text};

/// Why a connection has no route.
#[derive(Clone, Copy, Debug)]
pub enum NoRoute {
    /// Its source is no workload of this node.
    UnknownSource,
    /// No healthy workload serves the port of the service.
    NoEndpoint,
    /// The service has no such port.
    NoPort,
    /// Its destination's waypoint is an address of another network.
    OtherNetwork,
    /// No workload is held by its destination's waypoint.
    UnknownWaypoint,
    /// None of the waypoint's workloads is healthy and has an address and a port of TCP.
    NoWaypointEndpoint,
}

impl NoRoute {
    /// The number by which a cause names it, from 1 to 7; none is 4.
    pub fn number(self) -> u32
        ensures { result ≡ number_of self }
    {
        match self {
            NoRoute::UnknownSource => 1,
            NoRoute::NoEndpoint => 2,
            NoRoute::NoPort => 3,
            NoRoute::OtherNetwork => 5,
            NoRoute::UnknownWaypoint => 6,
            NoRoute::NoWaypointEndpoint => 7,
        }
    }

    /// The same in words.
    pub fn text(self) -> &'static str
        ensures { result.now ≡ text_of self }
    {
        match self {
            NoRoute::UnknownSource => "unknown source",
            NoRoute::NoEndpoint => "no healthy endpoint",
            NoRoute::NoPort => "no such port of the service",
            NoRoute::OtherNetwork => "waypoint of another network",
            NoRoute::UnknownWaypoint => "unknown waypoint",
            NoRoute::NoWaypointEndpoint => "no healthy endpoint of the waypoint",
        }
    }
}

/// The way that a connection takes.
#[derive(Drop)]
pub enum Route<'a> {
    /// By a CONNECT for `authority` on a connection to the gateway at `address` (RFC 9113 section 8.5). `endpoint` is the name of
    /// the resource of the workload at the gateway: that of the authority, or one of a waypoint in front of it.
    Gateway {
        address: Target,
        authority: Target,
        endpoint: &'a Text,
    },
    /// Straight to `address`. `endpoint` is the name of the workload's resource; `None` where no workload is known there.
    Direct {
        address: Target,
        endpoint: Option<&'a Text>,
    },
    /// None.
    Refused(NoRoute),
}
