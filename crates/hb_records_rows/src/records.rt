//! What a record is read as, told in words, and what it is written as again.

use crate::tables::{put, put_if, tell, tell_debug, text_of};
use hb_base::{Cidr, Ip, List, Or, Text};
use hb_canonical::{put_address, put_authorization};
use hb_records::{
    AddressRecord, Authorization, Clause, GatewayAddress, Match, NetworkAddress, Port, RecordFault,
    Rule, Service, ServicePorts, StringMatch, Waypoint, Workload, read_address, read_authorization,
};
use std::alloc::Global;
use std::process::Abort;

/// A text behind its name, and a blank.
fn tell_text(told: &mut String, name: &str, text: &Text) {
    put(told, name);
    put(told, text_of(text));
    put(told, " ");
}

fn tell_set(told: &mut String, name: &str, text: &Text) {
    if !text.as_slice().is_empty() {
        tell_text(told, name, text);
    }
}

fn tell_addresses(told: &mut String, addresses: &[Ip]) {
    for address in addresses {
        tell_debug(told, address, " ");
    }
}

fn tell_policies(told: &mut String, policies: &[Text]) {
    for policy in policies {
        tell_text(told, "policy=", policy);
    }
}

/// A network, a slash and an address.
fn tell_network_address(told: &mut String, there: &NetworkAddress) {
    put(told, "address ");
    put(told, text_of(&there.network));
    put(told, "/");
    tell_debug(told, &there.address, " ");
}

fn tell_network_addresses(told: &mut String, addresses: &[NetworkAddress]) {
    for address in addresses {
        tell_network_address(told, address);
    }
}

/// A namespace, a slash and a hostname.
fn tell_hostname(told: &mut String, namespace: &Text, hostname: &Text) {
    put(told, "host ");
    put(told, text_of(namespace));
    tell_text(told, "/", hostname);
}

/// To where a waypoint is, and its port.
fn tell_gateway(told: &mut String, gateway: &GatewayAddress) {
    put(told, "waypoint ");
    match &gateway.to {
        Waypoint::Hostname {
            namespace,
            hostname,
        } => tell_hostname(told, namespace, hostname),
        Waypoint::Address(there) => tell_network_address(told, there),
    }
    tell(told, &gateway.hbone_mtls_port, " ");
}

fn tell_waypoint(told: &mut String, waypoint: &Option<GatewayAddress>) {
    if let Some(gateway) = waypoint {
        tell_gateway(told, gateway);
    }
}

/// The port of a service, a colon and the port of a workload.
fn tell_ports(told: &mut String, ports: &[Port]) {
    for port in ports {
        tell(told, &port.service_port, ":");
        tell(told, &port.target_port, " ");
    }
}

fn tell_services(told: &mut String, services: &[ServicePorts]) {
    for service in services {
        tell_text(told, "serves=", &service.key);
        tell_ports(told, service.ports.as_slice());
    }
}

/// What of a workload isn't a default.
fn tell_workload(told: &mut String, workload: &Workload) {
    tell_set(told, "name=", &workload.name);
    tell_set(told, "namespace=", &workload.namespace);
    tell_set(told, "network=", &workload.network);
    tell_set(told, "trust_domain=", &workload.trust_domain);
    tell_set(told, "service_account=", &workload.service_account);
    tell_set(told, "node=", &workload.node);
    tell_set(told, "uid=", &workload.uid);
    tell_set(told, "hostname=", &workload.hostname);
    tell_addresses(told, workload.addresses.as_slice());
    tell_policies(told, workload.authorization_policies.as_slice());
    tell_waypoint(told, &workload.waypoint);
    tell_services(told, workload.services.as_slice());
    put_if(told, workload.hbone, "hbone ");
    put_if(told, !workload.healthy, "unhealthy ");
}

/// What of a service isn't a default.
fn tell_service(told: &mut String, service: &Service) {
    put(told, "service ");
    tell_set(told, "name=", &service.name);
    tell_set(told, "namespace=", &service.namespace);
    tell_set(told, "hostname=", &service.hostname);
    tell_network_addresses(told, service.addresses.as_slice());
    tell_ports(told, service.ports.as_slice());
    tell_waypoint(told, &service.waypoint);
}

fn tell_record(told: &mut String, record: &AddressRecord) {
    match record {
        AddressRecord::Workload(workload) => tell_workload(told, workload),
        AddressRecord::Service(service) => tell_service(told, service),
    }
}

fn tell_match(told: &mut String, name: &str, string_match: &StringMatch) {
    put(told, name);
    match string_match {
        StringMatch::Exact(text) => tell_text(told, " exact ", text),
        StringMatch::Prefix(text) => tell_text(told, " prefix ", text),
        StringMatch::Suffix(text) => tell_text(told, " suffix ", text),
        StringMatch::Presence => put(told, " presence "),
    }
}

fn tell_matches(told: &mut String, name: &str, matches: &List<StringMatch>) {
    for string_match in matches.as_slice() {
        tell_match(told, name, string_match);
    }
}

fn tell_prefixes(told: &mut String, name: &str, prefixes: &List<Cidr>) {
    for prefix in prefixes.as_slice() {
        put(told, name);
        tell_debug(told, &prefix.ip, "/");
        tell(told, &prefix.length, " ");
    }
}

fn tell_numbers(told: &mut String, name: &str, numbers: &List<u32>) {
    for number in numbers.as_slice() {
        put(told, name);
        tell(told, number, " ");
    }
}

/// The ten attributes of a match.
fn tell_attributes(told: &mut String, one: &Match) {
    put(told, "match ");
    tell_matches(told, "namespace", &one.namespaces);
    tell_matches(told, "not_namespace", &one.not_namespaces);
    tell_matches(told, "principal", &one.principals);
    tell_matches(told, "not_principal", &one.not_principals);
    tell_prefixes(told, "source ", &one.source_ips);
    tell_prefixes(told, "not_source ", &one.not_source_ips);
    tell_prefixes(told, "destination ", &one.destination_ips);
    tell_prefixes(told, "not_destination ", &one.not_destination_ips);
    tell_numbers(told, "port ", &one.destination_ports);
    tell_numbers(told, "not_port ", &one.not_destination_ports);
}

fn tell_clause(told: &mut String, clause: &Clause) {
    put(told, "clause ");
    for one in clause.matches.as_slice() {
        tell_attributes(told, one);
    }
}

fn tell_rule(told: &mut String, rule: &Rule) {
    put(told, "rule ");
    for clause in rule.clauses.as_slice() {
        tell_clause(told, clause);
    }
}

fn tell_authorization(told: &mut String, policy: &Authorization) {
    tell_set(told, "name=", &policy.name);
    tell_set(told, "namespace=", &policy.namespace);
    tell_debug(told, &policy.scope, " ");
    tell_debug(told, &policy.action, " ");
    for rule in policy.rules.as_slice() {
        tell_rule(told, rule);
    }
}

fn tell_fault(told: &mut String, why: Or<RecordFault>) {
    match why {
        Or::Fault(fault) => tell(told, &fault, ""),
        Or::NoMemory => put(told, "no memory"),
    }
}

/// What an address record is read as.
fn tell_address(alloc: Global, told: &mut String, bytes: &[u8]) {
    match read_address(alloc, bytes) {
        Ok(record) => tell_record(told, &record),
        Err(why) => tell_fault(told, why),
    }
}

/// What a policy is read as.
fn tell_policy(alloc: Global, told: &mut String, bytes: &[u8]) {
    match read_authorization(alloc, bytes) {
        Ok(policy) => tell_authorization(told, &policy),
        Err(why) => tell_fault(told, why),
    }
}

/// What the records of a table are.
pub enum Kind {
    Address,
    Policy,
}

/// What a record is read as.
pub fn tell_read(rt: &impl AllocGlobal, told: &mut String, kind: &Kind, bytes: &[u8]) {
    match kind {
        Kind::Address => tell_address(rt.alloc(), told, bytes),
        Kind::Policy => tell_policy(rt.alloc(), told, bytes),
    }
}

fn written_address(rt: &(impl Abort + AllocGlobal), bytes: &[u8]) -> Option<Vec<u8>> {
    let record = read_address(rt.alloc(), bytes).ok()?;
    let mut written = Vec::new(rt.alloc());
    put_address(rt.alloc(), &record, &mut written).expect(rt, "memory");
    Some(written)
}

fn written_policy(rt: &(impl Abort + AllocGlobal), bytes: &[u8]) -> Option<Vec<u8>> {
    let policy = read_authorization(rt.alloc(), bytes).ok()?;
    let mut written = Vec::new(rt.alloc());
    put_authorization(rt.alloc(), &policy, &mut written).expect(rt, "memory");
    Some(written)
}

/// What a record is written as again, if it is one.
pub fn written(rt: &(impl Abort + AllocGlobal), kind: &Kind, bytes: &[u8]) -> Option<Vec<u8>> {
    match kind {
        Kind::Address => written_address(rt, bytes),
        Kind::Policy => written_policy(rt, bytes),
    }
}
