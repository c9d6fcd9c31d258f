//! A resource held, as a line.

ghost use Rattle.std.specs.Prelude.{◌≡◌, IfOk};
ghost use Rattle.hb_canonical.specs.Address.{canonical_address};
ghost use Rattle.hb_canonical.specs.Authorization.{canonical_authorization};
ghost use Rattle.hb_held.specs.Rows.{row_as};
ghost use Rattle.serde_json.specs.View.{view};
ghost use Rattle.hb_lines.specs.Row.{action_word, scope_word, hex_data, workload_data, service_data, address_data, policy_data, row_data, row_text};

use crate::value::{ToJson, array_of, hex_of, line_of};
use hb_base::{NoMemory, Text};
use hb_canonical::{put_address, put_authorization};
use hb_held::{HeldRecord, HeldRow};
use hb_records::{Action, AddressRecord, Authorization, Reach, Service, Workload};
use serde_json::{Value, json};
use std::alloc::Global;

pub(crate) fn action_word(action: Action) -> &'static str
    ensures { result.now ≡ action_word action }
{
    match action {
        Action::Allow => "allow",
        Action::Deny => "deny",
    }
}

fn scope_word(scope: Reach) -> &'static str
    ensures { result.now ≡ scope_word scope }
{
    match scope {
        Reach::Global => "global",
        Reach::Namespace => "namespace",
        Reach::Selector => "selector",
    }
}

fn address_hex(alloc: Global, record: &AddressRecord) -> Result<Value, NoMemory>
    ensures { IfOk result (λ v. view v ≡ hex_data (canonical_address «record».now)) }
{
    let mut bytes = Vec::new(alloc);
    put_address(alloc, record, &mut bytes)?;
    hex_of(alloc, bytes.as_slice())
}

fn policy_hex(alloc: Global, policy: &Authorization) -> Result<Value, NoMemory>
    ensures { IfOk result (λ v. view v ≡ hex_data (canonical_authorization policy.now)) }
{
    let mut bytes = Vec::new(alloc);
    put_authorization(alloc, policy, &mut bytes)?;
    hex_of(alloc, bytes.as_slice())
}

/// A workload under its resource's name, with its record in hexadecimal digits.
fn workload_value(
    alloc: Global,
    name: Value,
    version: Value,
    spelled: Value,
    workload: &Workload,
) -> Result<Value, NoMemory>
    ensures { IfOk result (λ v. view v ≡ workload_data (view name) (view version) (view spelled) workload.now) }
{
    let addresses = array_of(alloc, workload.addresses.as_slice())?;
    let node = workload.node.to_json(alloc)?;
    json!(in alloc; {
        "addresses": addresses,
        "kind": "workload",
        "name": name,
        "node": node,
        "record": spelled,
        "version": version
    })
}

/// A service under its resource's name, with its record in hexadecimal digits.
fn service_value(
    alloc: Global,
    name: Value,
    version: Value,
    spelled: Value,
    service: &Service,
) -> Result<Value, NoMemory>
    ensures { IfOk result (λ v. view v ≡ service_data (view name) (view version) (view spelled) service.now) }
{
    let addresses = array_of(alloc, service.addresses.as_slice())?;
    json!(in alloc; {
        "addresses": addresses,
        "kind": "service",
        "name": name,
        "record": spelled,
        "version": version
    })
}

fn address_value(
    alloc: Global,
    name: &Text,
    version: &Text,
    record: &AddressRecord,
) -> Result<Value, NoMemory>
    ensures { IfOk result (λ v. view v ≡ address_data name.now version.now «record».now) }
{
    let name = name.to_json(alloc)?;
    let version = version.to_json(alloc)?;
    let spelled = address_hex(alloc, record)?;
    match record {
        AddressRecord::Workload(workload) => {
            workload_value(alloc, name, version, spelled, workload)
        }
        AddressRecord::Service(service) => service_value(alloc, name, version, spelled, service),
    }
}

fn policy_value(
    alloc: Global,
    name: &Text,
    version: &Text,
    policy: &Authorization,
) -> Result<Value, NoMemory>
    ensures { IfOk result (λ v. view v ≡ policy_data name.now version.now policy.now) }
{
    let name = name.to_json(alloc)?;
    let version = version.to_json(alloc)?;
    let record = policy_hex(alloc, policy)?;
    let action = action_word(policy.action);
    let scope = scope_word(policy.scope);
    json!(in alloc; {
        "action": action,
        "kind": "policy",
        "name": name,
        "record": record,
        "scope": scope,
        "version": version
    })
}

/// A resource held, as an object.
pub(crate) fn row_value(alloc: Global, row: &HeldRow<'_>) -> Result<Value, NoMemory>
    ensures { IfOk result (λ v. view v ≡ row_data (row_as row.now)) }
{
    match row.content {
        HeldRecord::Address(record) => address_value(alloc, row.name, row.version, record),
        HeldRecord::Policy(policy) => policy_value(alloc, row.name, row.version, policy),
    }
}

/// A resource held: compact JSON (RFC 8259), its keys in byte order, and a newline.
///
/// Errors: `NoMemory`.
#[tactic(auto, unfolding(crate::specs::Row::row_text))]
pub fn row_line(alloc: Global, row: &HeldRow<'_>) -> Result<Vec<u8>, NoMemory>
    ensures { IfOk result (λ line. line.items ≡ row_text (row_as row.now)) }
{
    let value = row_value(alloc, row)?;
    line_of(alloc, &value)
}
