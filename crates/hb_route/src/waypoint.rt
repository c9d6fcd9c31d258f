//! The way through a waypoint: connections to what it stands in front of go to one of its workloads first.

ghost use Rattle.std.specs.Prelude.{◌≡◌};
ghost use Rattle.hb_held.specs.Endpoints.{endpoints};
ghost use Rattle.hb_held.specs.Lookup.{workload_at};
ghost use Rattle.hb_route.specs.Answer.{way_as};
ghost use Rattle.hb_route.specs.Endpoint.{place_as};
ghost use Rattle.hb_route.specs.Waypoint.{waypoint_port, by_place, why_none, through_hostname, through_workload, through_service};
ghost use Rattle.hb_route.specs.Waypoint.{through_network, to_waypoint};

use crate::answer::{NoRoute, Route};
use crate::endpoint::{Endpoint, ToPort, chosen, endpoint_with};
use crate::opens::Opens;
use hb_base::{Ip, Target, Text};
use hb_held::Held;
use hb_records::{GatewayAddress, NetworkAddress, Service, Waypoint};

/// The port at which the waypoint takes HBONE.
fn waypoint_port(waypoint: &GatewayAddress, hbone_port: u16) -> u32
    ensures { result ≡ waypoint_port waypoint.now hbone_port }
{
    match waypoint.hbone_mtls_port {
        0 => u32::from(hbone_port),
        port => port,
    }
}

/// The way to the destination by the gateway at an endpoint of its waypoint.
fn by_endpoint(endpoint: Endpoint<'_>, destination: Target) -> Route<'_>
    ensures { way_as result ≡ by_place destination (place_as endpoint.entry) }
{
    Route::Gateway {
        address: endpoint.target,
        authority: destination,
        endpoint: endpoint.name,
    }
}

/// Why none of the workloads that serve a hostname takes connections.
fn why_none(held: &Held, namespace: &Text, hostname: &Text) -> NoRoute
    ensures { result ≡ why_none (endpoints held.now namespace.now hostname.now) }
{
    let mut endpoints = held.endpoints(namespace, hostname);
    match endpoints.next() {
        None => NoRoute::UnknownWaypoint,
        Some(_) => NoRoute::NoWaypointEndpoint,
    }
}

/// The way through the workloads that serve a hostname.
fn through_hostname<'a>(
    held: &'a Held,
    opens: &Opens,
    namespace: &'a Text,
    hostname: &'a Text,
    port: u32,
    destination: Target,
) -> Route<'a>
    ensures { way_as result ≡ through_hostname held.now opens.now namespace.now hostname.now port destination }
{
    match chosen(held, opens, namespace, hostname, ToPort::Number(port)) {
        Some(endpoint) => by_endpoint(endpoint, destination),
        None => Route::Refused(why_none(held, namespace, hostname)),
    }
}

/// The way through the workload that has an address.
fn through_workload(held: &Held, ip: Ip, port: u32, destination: Target) -> Route<'_>
    ensures { way_as result ≡ through_workload (workload_at held.now ip) ip port destination }
{
    let Some(found) = held.workload_at(ip) else {
        return Route::Refused(NoRoute::UnknownWaypoint);
    };
    match endpoint_with(&found, Some(ip), ToPort::Number(port)) {
        Some(endpoint) => by_endpoint(endpoint, destination),
        None => Route::Refused(NoRoute::NoWaypointEndpoint),
    }
}

/// The way through the workloads that serve a service.
fn through_service<'a>(
    held: &'a Held,
    opens: &Opens,
    service: &'a Service,
    port: u32,
    destination: Target,
) -> Route<'a>
    ensures { way_as result ≡ through_service held.now opens.now service.now port destination }
{
    let to = ToPort::Number(port);
    match chosen(held, opens, &service.namespace, &service.hostname, to) {
        Some(endpoint) => by_endpoint(endpoint, destination),
        None => Route::Refused(NoRoute::NoWaypointEndpoint),
    }
}

/// The way through what has an address: the service, else the workload.
fn through_address<'a>(
    held: &'a Held,
    opens: &Opens,
    address: &NetworkAddress,
    port: u32,
    destination: Target,
) -> Route<'a>
    ensures { way_as result ≡ through_network held.now opens.now address.now port destination }
{
    if !held.is_network(&address.network) {
        return Route::Refused(NoRoute::OtherNetwork);
    }
    match held.service_at(address.address) {
        Some(found) => through_service(held, opens, found.service, port, destination),
        None => through_workload(held, address.address, port, destination),
    }
}

/// The way to a destination through its waypoint: by the gateway on one of the waypoint's workloads, with the destination as authority.
pub(crate) fn to_waypoint<'a>(
    held: &'a Held,
    opens: &Opens,
    waypoint: &'a GatewayAddress,
    destination: Target,
    hbone_port: u16,
) -> Route<'a>
    ensures { way_as result ≡ to_waypoint held.now opens.now waypoint.now destination hbone_port }
{
    let port = waypoint_port(waypoint, hbone_port);
    match &waypoint.to {
        Waypoint::Hostname {
            namespace,
            hostname,
        } => through_hostname(held, opens, namespace, hostname, port, destination),
        Waypoint::Address(address) => through_address(held, opens, address, port, destination),
    }
}
