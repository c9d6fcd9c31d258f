//! A resource held, as a line with the fields of its record.

ghost use Rattle.std.specs.Prelude.{◌≡◌, OnOk, IfOk};
ghost use Rattle.std.specs.Option.{option_map};
ghost use Rattle.hb_held.specs.Rows.{content_as, row_as};
ghost use Rattle.serde_json.specs.View.{view};
ghost use Rattle.hb_lines.specs.AddressFields.{waypoint_data};
ghost use Rattle.hb_lines.specs.Object.{members_as, put_members};
ghost use Rattle.hb_lines.specs.Fields.{protocol_word, status_word, action_name, scope_name};
ghost use Rattle.hb_lines.specs.Fields.{name_members, state_members, workload_fields, service_fields, policy_fields};
ghost use Rattle.hb_lines.specs.Fields.{record_fields, content_fields, fields_data, fields_text};

use crate::address_fields::{network_addresses, services_value};
use crate::object::{Object, with_member};
use crate::row::row_value;
use crate::value::{ToJson, line_of};
use hb_base::NoMemory;
use hb_held::{HeldRecord, HeldRow};
use hb_records::{Action, AddressRecord, Authorization, GatewayAddress, Reach, Service, Workload};
use serde_json::Value;
use std::alloc::Global;

fn protocol_word(hbone: bool) -> &'static str
    ensures { result.now ≡ protocol_word hbone }
{
    if hbone { "HBONE" } else { "TCP" }
}

fn status_word(healthy: bool) -> &'static str
    ensures { result.now ≡ status_word healthy }
{
    if healthy { "Healthy" } else { "Unhealthy" }
}

fn action_name(action: Action) -> &'static str
    ensures { result.now ≡ action_name action }
{
    match action {
        Action::Allow => "ALLOW",
        Action::Deny => "DENY",
    }
}

fn scope_name(scope: Reach) -> &'static str
    ensures { result.now ≡ scope_name scope }
{
    match scope {
        Reach::Global => "GLOBAL",
        Reach::Namespace => "NAMESPACE",
        Reach::Selector => "WORKLOAD_SELECTOR",
    }
}

fn waypoint_value(
    alloc: Global,
    waypoint: &Option<GatewayAddress>,
) -> Result<Option<Value>, NoMemory>
    ensures { IfOk result (λ v. option_map view v ≡ option_map waypoint_data waypoint.now) }
{
    match waypoint {
        Some(waypoint) => Ok(Some(waypoint.to_json(alloc)?)),
        None => Ok(None),
    }
}

/// Puts the names of a workload.
fn put_names(workload: &Workload, fields: &mut Object) -> Result<(), NoMemory>
    ensures { OnOk result (members_as fields.new ≡ put_members (members_as fields.old) (name_members workload.now)) }
{
    fields.put_text("hostname", &workload.hostname)?;
    fields.put_text("name", &workload.name)?;
    fields.put_text("namespace", &workload.namespace)?;
    fields.put_text("network", &workload.network)?;
    fields.put_text("node", &workload.node)?;
    fields.put_text("serviceAccount", &workload.service_account)?;
    fields.put_text("trustDomain", &workload.trust_domain)?;
    fields.put_text("uid", &workload.uid)?;
    Ok(())
}

/// Puts what else is said of a workload.
fn put_state(alloc: Global, workload: &Workload, fields: &mut Object) -> Result<(), NoMemory>
    ensures { OnOk result (members_as fields.new ≡ put_members (members_as fields.old) (state_members workload.now)) }
{
    let policies = workload.authorization_policies.as_slice();
    let services = services_value(alloc, workload.services.as_slice())?;
    let waypoint = waypoint_value(alloc, &workload.waypoint)?;
    fields.put_array("addresses", workload.addresses.as_slice())?;
    fields.put_array("authorizationPolicies", policies)?;
    fields.put_word("protocol", protocol_word(workload.hbone))?;
    fields.put_some("services", services)?;
    fields.put_word("status", status_word(workload.healthy))?;
    fields.put_some("waypoint", waypoint)
}

fn workload_fields(alloc: Global, workload: &Workload) -> Result<Value, NoMemory>
    ensures { IfOk result (λ v. view v ≡ workload_fields workload.now) }
{
    let mut fields = Object::new(alloc);
    put_names(workload, &mut fields)?;
    put_state(alloc, workload, &mut fields)?;
    Ok(fields.into_value())
}

fn service_fields(alloc: Global, service: &Service) -> Result<Value, NoMemory>
    ensures { IfOk result (λ v. view v ≡ service_fields service.now) }
{
    let addresses = network_addresses(alloc, service.addresses.as_slice())?;
    let waypoint = waypoint_value(alloc, &service.waypoint)?;
    let mut fields = Object::new(alloc);
    fields.put_some("addresses", addresses)?;
    fields.put_text("hostname", &service.hostname)?;
    fields.put_text("name", &service.name)?;
    fields.put_text("namespace", &service.namespace)?;
    fields.put_array("ports", service.ports.as_slice())?;
    fields.put_some("waypoint", waypoint)?;
    Ok(fields.into_value())
}

fn policy_fields(alloc: Global, policy: &Authorization) -> Result<Value, NoMemory>
    ensures { IfOk result (λ v. view v ≡ policy_fields policy.now) }
{
    let mut fields = Object::new(alloc);
    fields.put_word("action", action_name(policy.action))?;
    fields.put_text("name", &policy.name)?;
    fields.put_text("namespace", &policy.namespace)?;
    fields.put_array("rules", policy.rules.as_slice())?;
    fields.put_word("scope", scope_name(policy.scope))?;
    Ok(fields.into_value())
}

fn record_fields(alloc: Global, record: &AddressRecord) -> Result<Value, NoMemory>
    ensures { IfOk result (λ v. view v ≡ record_fields «record».now) }
{
    match record {
        AddressRecord::Workload(workload) => workload_fields(alloc, workload),
        AddressRecord::Service(service) => service_fields(alloc, service),
    }
}

fn content_fields(alloc: Global, row: &HeldRow<'_>) -> Result<Value, NoMemory>
    ensures { IfOk result (λ v. view v ≡ content_fields (content_as row.now.content)) }
{
    match row.content {
        HeldRecord::Address(record) => record_fields(alloc, record),
        HeldRecord::Policy(policy) => policy_fields(alloc, policy),
    }
}

fn fields_value(alloc: Global, row: &HeldRow<'_>) -> Result<Value, NoMemory>
    ensures { IfOk result (λ v. view v ≡ fields_data (row_as row.now)) }
{
    let value = row_value(alloc, row)?;
    let fields = content_fields(alloc, row)?;
    with_member(alloc, "fields", fields, value)
}

/// A resource held, as `row_line` tells it, with one member more, `fields`: the fields of its record, named as Istio's API names them. What
/// is empty is left out.
///
/// Errors: `NoMemory`.
#[tactic(auto, unfolding(crate::specs::Fields::fields_text))]
pub fn fields_line(alloc: Global, row: &HeldRow<'_>) -> Result<Vec<u8>, NoMemory>
    ensures { IfOk result (λ line. line.items ≡ fields_text (row_as row.now)) }
{
    let value = fields_value(alloc, row)?;
    line_of(alloc, &value)
}
