//! The way that a connection takes.

ghost use Rattle.std.specs.Prelude.{◌≡◌};
ghost use Rattle.std.specs.Option.{option_map};
ghost use Rattle.hb_held.specs.Lookup.{found_as};
ghost use Rattle.hb_route.specs.Answer.{way_as};
ghost use Rattle.hb_route.specs.Endpoint.{place_as};
ghost use Rattle.hb_route.specs.Ports.{port_at};
ghost use Rattle.hb_route.specs.Routing.{to_place, to_port, to_service, to_workload, way};

use crate::answer::{NoRoute, Route};
use crate::endpoint::{Endpoint, ToPort, chosen};
use crate::opens::Opens;
use crate::ports::port_at;
use crate::waypoint::to_waypoint;
use hb_base::{Ip, Target};
use hb_held::{Found, Held};
use hb_records::Service;

/// The way to an endpoint: through the gateway on its own address where it takes HBONE, else straight.
fn to_endpoint(endpoint: Endpoint<'_>, hbone_port: u16) -> Route<'_>
    ensures { way_as result ≡ to_place hbone_port (place_as endpoint.entry) }
{
    if endpoint.hbone {
        Route::Gateway {
            address: Target {
                ip: endpoint.target.ip,
                port: hbone_port,
            },
            authority: endpoint.target,
            endpoint: endpoint.name,
        }
    } else {
        Route::Direct {
            address: endpoint.target,
            endpoint: Some(endpoint.name),
        }
    }
}

/// The way to a port of a service.
fn to_port<'a>(
    held: &'a Held,
    opens: &Opens,
    service: &'a Service,
    number: u16,
    hbone_port: u16,
) -> Route<'a>
    ensures { way_as result ≡ to_port held.now opens.now service.now hbone_port (port_at service.now.ports number) }
{
    let Some(port) = port_at(&service.ports, u32::from(number)) else {
        return Route::Refused(NoRoute::NoPort);
    };
    let to = ToPort::OfService(service, port);
    match chosen(held, opens, &service.namespace, &service.hostname, to) {
        Some(endpoint) => to_endpoint(endpoint, hbone_port),
        None => Route::Refused(NoRoute::NoEndpoint),
    }
}

/// The way to a service, through its waypoint where it has one.
fn to_service<'a>(
    held: &'a Held,
    opens: &Opens,
    service: &'a Service,
    destination: Target,
    hbone_port: u16,
) -> Route<'a>
    ensures { way_as result ≡ to_service held.now opens.now service.now service.now.waypoint destination hbone_port }
{
    match &service.waypoint {
        Some(waypoint) => to_waypoint(held, opens, waypoint, destination, hbone_port),
        None => to_port(held, opens, service, destination.port, hbone_port),
    }
}

/// The way to a workload itself, through its waypoint where it has one.
fn to_workload<'a>(
    held: &'a Held,
    opens: &Opens,
    found: Found<'a>,
    destination: Target,
    hbone_port: u16,
) -> Route<'a>
    ensures { way_as result ≡ to_workload held.now opens.now (found_as found.entry) found.entry.workload.now.waypoint destination hbone_port }
{
    match &found.workload.waypoint {
        Some(waypoint) => to_waypoint(held, opens, waypoint, destination, hbone_port),
        None => to_endpoint(
            Endpoint {
                name: found.name,
                target: destination,
                hbone: found.workload.hbone,
            },
            hbone_port,
        ),
    }
}

/// The way that a connection from `source` to `destination` takes, by the resources held and by how many connections each endpoint
/// has open. The first of these that applies: the source is no workload of this node; a service has the destination's address; a
/// workload has it; else straight to the destination. Where a waypoint stands in front of that service or workload, the way goes
/// through one of the waypoint's workloads, and never past them. Takes no memory.
pub fn route<'a>(
    held: &'a Held,
    opens: &Opens,
    source: Ip,
    destination: Target,
    hbone_port: u16,
) -> Route<'a>
    ensures { way_as result ≡ way held.now opens.now source destination hbone_port }
{
    if held.known(source).is_none() {
        return Route::Refused(NoRoute::UnknownSource);
    }
    if let Some(found) = held.service_at(destination.ip) {
        return to_service(held, opens, found.service, destination, hbone_port);
    }
    match held.workload_at(destination.ip) {
        Some(found) => to_workload(held, opens, found, destination, hbone_port),
        None => Route::Direct {
            address: destination,
            endpoint: None,
        },
    }
}
