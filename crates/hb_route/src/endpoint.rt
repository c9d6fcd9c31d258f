//! Which of the workloads of a service, or of a waypoint, a connection goes to.

ghost use Rattle.std.specs.Prelude.{◌≡◌, IfSome};
ghost use Rattle.std.specs.Cmp.Lexicographic.{slice_cmp};
ghost use Rattle.std.specs.Option.{option_map};
ghost use Rattle.std.specs.Ordering.{nat_cmp, ordering_then, is_lt};
ghost use Rattle.hb_held.specs.Lookup.{found_as};
ghost use Rattle.hb_held.specs.Endpoints.{endpoints};
ghost use Rattle.hb_route.specs.Endpoint.{leading_as, port_by, place_with, place_by, place_as, places_by, better, chosen};
ghost use Rattle.hb_route.specs.Opens.{open_at};

use crate::opens::Opens;
use crate::ports::port_of;
use hb_base::{Ip, Target, Text};
use hb_held::{Found, Held};
use hb_records::{Port, Service, Workload};

/// A workload that a connection may go to.
#[derive(Clone, Copy)]
pub(crate) struct Endpoint<'a> {
    /// The name of its resource.
    pub name: &'a Text,
    pub target: Target,
    /// It takes HBONE.
    pub hbone: bool,
}

/// An endpoint, and how many connections it has open.
#[derive(Clone, Copy)]
struct Candidate<'a> {
    endpoint: Endpoint<'a>,
    opens: u64,
}

/// How the port of a workload is had.
#[derive(Clone, Copy)]
pub(crate) enum ToPort<'a> {
    /// By the workload's entry for a port of a service.
    OfService(&'a Service, Port),
    /// It is this number, of any workload.
    Number(u32),
}

/// The port of a workload. `None` where it has none, or no port of TCP.
fn port_by(workload: &Workload, to: ToPort<'_>) -> Option<u16>
    ensures { result ≡ port_by (leading_as to.entry) workload.now }
{
    match to {
        ToPort::OfService(service, port) => port_of(workload, service, port),
        ToPort::Number(number) => u16::try_from(number).ok(),
    }
}

/// The workload as an endpoint at an address. `None` where it isn't healthy, or has no address or port.
pub(crate) fn endpoint_with<'a>(
    found: &Found<'a>,
    ip: Option<Ip>,
    to: ToPort<'_>,
) -> Option<Endpoint<'a>>
    ensures { option_map place_as result ≡ place_with (leading_as to.entry) ip (found_as found.now) }
{
    let workload = found.workload;
    if !workload.healthy {
        return None;
    }
    let ip = ip?;
    let port = port_by(workload, to)?;
    Some(Endpoint {
        name: found.name,
        target: Target { ip, port },
        hbone: workload.hbone,
    })
}

/// The same at its first address.
fn endpoint_of<'a>(found: &Found<'a>, to: ToPort<'_>) -> Option<Endpoint<'a>>
    ensures { option_map place_as result ≡ place_by (leading_as to.entry) (found_as found.now) }
{
    endpoint_with(found, found.workload.addresses.get(0).copied(), to)
}

/// The one goes before the other: it has fewer connections open, or as many and the smaller name.
fn goes_before(one: &Candidate<'_>, other: &Candidate<'_>) -> bool
    ensures { result ≡ is_lt (ordering_then (nat_cmp one.now.opens other.now.opens)
        (slice_cmp nat_cmp one.now.endpoint.name.now other.now.endpoint.name.now)) }
{
    let by_opens = one.opens.cmp(&other.opens);
    by_opens
        .then_with(|| one.endpoint.name.cmp(other.endpoint.name))
        .is_lt()
}

/// The endpoint that goes first, of the best so far and one more.
fn better<'a>(opens: &Opens, best: Option<Candidate<'a>>, endpoint: Endpoint<'a>) -> Candidate<'a>
    requires { IfSome best (λ b. b.opens ≡ open_at opens.now b.endpoint.name.now) }
    ensures first { place_as result.endpoint
        ≡ better opens.now (option_map (λ b. place_as b.endpoint) best.entry) (place_as endpoint.entry) }
    ensures counted { result.opens ≡ open_at opens.now result.endpoint.name.now }
{
    let more = Candidate {
        endpoint,
        opens: opens.of(endpoint.name),
    };
    match best {
        Some(best) if !goes_before(&more, &best) => best,
        _ => more,
    }
}

/// Of the workloads of this network that serve a hostname the endpoint that goes before all others. `None` where there is none.
pub(crate) fn chosen<'a>(
    held: &'a Held,
    opens: &Opens,
    namespace: &'a Text,
    hostname: &'a Text,
    to: ToPort<'_>,
) -> Option<Endpoint<'a>>
    ensures { option_map place_as result
        ≡ chosen opens.now (places_by (leading_as to.entry) (endpoints held.now namespace.now hostname.now)) }
{
    let mut best: Option<Candidate<'a>> = None;
    let mut endpoints = held.endpoints(namespace, hostname);
    while let Some(found) = endpoints.next() {
        if let Some(endpoint) = endpoint_of(&found, to) {
            best = Some(better(opens, best, endpoint));
        }
    }
    Some(best?.endpoint)
}
