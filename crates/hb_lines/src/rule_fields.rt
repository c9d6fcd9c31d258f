//! What a rule of a policy asks for, as Istio spells it.

ghost use Rattle.std.specs.Prelude.{◌≡◌, string_bytes, IfOk};
ghost use Rattle.hb_lines.specs.RuleFields.{string_match_text, cidr_text};

use crate::object::Object;
use crate::value::{ToJson, array_of, ip_string};
use hb_base::{Cidr, NoMemory};
use hb_quote::str_of;
use hb_records::{Clause, Match, Rule, StringMatch};
use serde_json::Value;
use std::alloc::Global;

fn string_match_text(alloc: Global, string_match: &StringMatch) -> Result<String, NoMemory>
    ensures { IfOk result (λ text. string_bytes text ≡ string_match_text string_match.now) }
{
    match string_match {
        StringMatch::Exact(text) => String::from_str(alloc, str_of(text)),
        StringMatch::Prefix(text) => {
            let text = str_of(text);
            format!(in alloc; "{text}*")
        }
        StringMatch::Suffix(text) => {
            let text = str_of(text);
            format!(in alloc; "*{text}")
        }
        StringMatch::Presence => String::from_str(alloc, "*"),
    }
}

fn cidr_text(alloc: Global, cidr: Cidr) -> Result<String, NoMemory>
    ensures { IfOk result (λ text. string_bytes text ≡ cidr_text cidr) }
{
    let ip = ip_string(alloc, cidr.ip)?;
    let length = cidr.length;
    format!(in alloc; "{ip}/{length}")
}

/// Its text.
impl ToJson for StringMatch {
    ghost use Rattle.hb_lines.specs.RuleFields.{string_match_data};

    ghost told = { string_match_data };

    fn to_json(&self, alloc: Global) -> Result<Value, NoMemory> {
        Ok(Value::String(string_match_text(alloc, self)?))
    }
}

/// Its text.
impl ToJson for Cidr {
    ghost use Rattle.hb_lines.specs.RuleFields.{cidr_data};

    ghost told = { cidr_data };

    fn to_json(&self, alloc: Global) -> Result<Value, NoMemory> {
        Ok(Value::String(cidr_text(alloc, *self)?))
    }
}

/// The lists that it has.
impl ToJson for Match {
    ghost use Rattle.hb_lines.specs.RuleFields.{match_data};

    ghost told = { match_data };

    fn to_json(&self, alloc: Global) -> Result<Value, NoMemory> {
        let mut fields = Object::new(alloc);
        fields.put_array("destinationIps", self.destination_ips.as_slice())?;
        fields.put_array("destinationPorts", self.destination_ports.as_slice())?;
        fields.put_array("namespaces", self.namespaces.as_slice())?;
        fields.put_array("notDestinationIps", self.not_destination_ips.as_slice())?;
        fields.put_array("notDestinationPorts", self.not_destination_ports.as_slice())?;
        fields.put_array("notNamespaces", self.not_namespaces.as_slice())?;
        fields.put_array("notPrincipals", self.not_principals.as_slice())?;
        fields.put_array("notSourceIps", self.not_source_ips.as_slice())?;
        fields.put_array("principals", self.principals.as_slice())?;
        fields.put_array("sourceIps", self.source_ips.as_slice())?;
        Ok(fields.into_value())
    }
}

/// Its matches.
impl ToJson for Clause {
    ghost use Rattle.hb_lines.specs.RuleFields.{clause_data};

    ghost told = { clause_data };

    fn to_json(&self, alloc: Global) -> Result<Value, NoMemory> {
        array_of(alloc, self.matches.as_slice())
    }
}

/// Its clauses.
impl ToJson for Rule {
    ghost use Rattle.hb_lines.specs.RuleFields.{rule_data};

    ghost told = { rule_data };

    fn to_json(&self, alloc: Global) -> Result<Value, NoMemory> {
        array_of(alloc, self.clauses.as_slice())
    }
}
