//! Addresses with their networks, waypoints, and the ports of services.

ghost use Rattle.std.specs.Prelude.{◌≡◌, map, string_bytes, IfOk};
ghost use Rattle.std.specs.Option.{option_map};
ghost use Rattle.serde_json.specs.View.{view};
ghost use Rattle.hb_held.specs.Endpoints.{joined};
ghost use Rattle.hb_lines.specs.AddressFields.{network_address_text, network_address_data, destination_text, services_member};
ghost use Rattle.hb_lines.specs.Object.{array_member};

use crate::object::Object;
use crate::value::{ToJson, array_of, ip_string};
use hb_base::NoMemory;
use hb_quote::str_of;
use hb_records::{GatewayAddress, NetworkAddress, Port, ServicePorts, Waypoint};
use serde_json::Value;
use std::alloc::Global;

/// Two names, joined by a slash.
pub(crate) fn joined_text(alloc: Global, first: &str, second: &str) -> Result<String, NoMemory>
    ensures { IfOk result (λ text. string_bytes text ≡ joined first.now second.now) }
{
    format!(in alloc; "{first}/{second}")
}

fn network_address_text(alloc: Global, address: &NetworkAddress) -> Result<String, NoMemory>
    ensures { IfOk result (λ text. string_bytes text ≡ network_address_text address.now) }
{
    let ip = ip_string(alloc, address.address)?;
    joined_text(alloc, str_of(&address.network), ip.as_str())
}

/// An array of addresses with their networks, in order; `None` where there is none.
#[tactic(auto, unfolding(crate::specs::Object::array_member))]
pub(crate) fn network_addresses(
    alloc: Global,
    addresses: &[NetworkAddress],
) -> Result<Option<Value>, NoMemory>
    ensures { IfOk result (λ v. option_map view v ≡ array_member (map network_address_data addresses.now)) }
{
    if addresses.is_empty() {
        return Ok(None);
    }
    let mut values = Vec::with_capacity(alloc, addresses.len())?;
    for address in addresses {
        values.push(Value::String(network_address_text(alloc, address)?))?;
    }
    Ok(Some(Value::Array(values)))
}

fn destination_text(alloc: Global, to: &Waypoint) -> Result<String, NoMemory>
    ensures { IfOk result (λ text. string_bytes text ≡ destination_text to.now) }
{
    match to {
        Waypoint::Hostname {
            namespace,
            hostname,
        } => joined_text(alloc, str_of(namespace), str_of(hostname)),
        Waypoint::Address(address) => network_address_text(alloc, address),
    }
}

/// Its destination, and its port where it names one.
impl ToJson for GatewayAddress {
    ghost use Rattle.hb_lines.specs.AddressFields.{waypoint_data};

    ghost told = { waypoint_data };

    fn to_json(&self, alloc: Global) -> Result<Value, NoMemory> {
        let destination = destination_text(alloc, &self.to)?;
        let mut fields = Object::new(alloc);
        fields.put_word("destination", destination.as_str())?;
        fields.put_number("hboneMtlsPort", self.hbone_mtls_port)?;
        Ok(fields.into_value())
    }
}

/// Its number, and that of the port to which it leads where it names one.
impl ToJson for Port {
    ghost use Rattle.hb_lines.specs.AddressFields.{port_data};

    ghost told = { port_data };

    fn to_json(&self, alloc: Global) -> Result<Value, NoMemory> {
        let mut fields = Object::new(alloc);
        fields.put_some("servicePort", Some(Value::from(self.service_port)))?;
        fields.put_number("targetPort", self.target_port)?;
        Ok(fields.into_value())
    }
}

/// The ports under which a workload serves each service; `None` where it serves none.
#[tactic(auto, unfolding(crate::specs::AddressFields::services_member))]
pub(crate) fn services_value(
    alloc: Global,
    services: &[ServicePorts],
) -> Result<Option<Value>, NoMemory>
    ensures { IfOk result (λ v. option_map view v ≡ services_member services.now) }
{
    if services.is_empty() {
        return Ok(None);
    }
    let mut fields = Object::new(alloc);
    for service in services {
        let ports = array_of(alloc, service.ports.as_slice())?;
        fields.put(str_of(&service.key), ports)?;
    }
    Ok(Some(fields.into_value()))
}
