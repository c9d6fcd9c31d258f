//! Which port of a service a connection is for, and to which port of a workload that leads.

ghost use Rattle.std.specs.Prelude.{◌≡◌};
ghost use Rattle.std.specs.Option.{option_copied};
ghost use Rattle.std.specs.Str.{bytes_eq};
ghost use Rattle.hb_held.specs.Endpoints.{joined};
ghost use Rattle.hb_route.specs.Ports.{port_at, ports_under, target_port, port_of};

use hb_base::{List, Text};
use hb_records::{Port, Service, ServicePorts, Workload};

/// The first port of this number.
pub(crate) fn port_at(ports: &List<Port>, number: u32) -> Option<Port>
    ensures { result ≡ port_at ports.now number }
{
    for port in ports.as_slice() {
        if port.service_port == number {
            return Some(*port);
        }
    }
    None
}

/// The key is the namespace and the hostname, joined by a slash.
fn is_key(key: &[u8], namespace: &[u8], hostname: &[u8]) -> bool
    ensures { result ≡ bytes_eq key.now (joined namespace.now hostname.now) }
{
    let Some(rest) = key.strip_prefix(namespace) else {
        return false;
    };
    match rest.strip_prefix(b"/") {
        Some(last) => last == hostname,
        None => false,
    }
}

/// The ports under which a workload serves a service. `None` where it doesn't.
fn ports_under<'a>(
    services: &'a List<ServicePorts>,
    namespace: &Text,
    hostname: &Text,
) -> Option<&'a List<Port>>
    ensures { option_copied result ≡ ports_under services.now (joined namespace.now hostname.now) }
{
    for service in services.as_slice() {
        if is_key(
            service.key.as_slice(),
            namespace.as_slice(),
            hostname.as_slice(),
        ) {
            return Some(&service.ports);
        }
    }
    None
}

/// The port that a workload's entry names, else the one that the service names, else the one of the service itself; 0 names none.
/// `None` where it is no port of TCP.
fn target_port(entry: Port, port: Port) -> Option<u16>
    ensures { result ≡ target_port entry port }
{
    let target = match (entry.target_port, port.target_port) {
        (0, 0) => port.service_port,
        (0, target) => target,
        (target, _) => target,
    };
    u16::try_from(target).ok()
}

/// The port of the workload to which a port of the service leads. `None` where it leads to none.
pub(crate) fn port_of(workload: &Workload, service: &Service, port: Port) -> Option<u16>
    ensures { result ≡ port_of workload.now service.now port }
{
    let ports = ports_under(&workload.services, &service.namespace, &service.hostname)?;
    let entry = port_at(ports, port.service_port)?;
    target_port(entry, port)
}
