//! The rules of a policy.

ghost use Rattle.std.specs.Prelude.{◌≡◌, ◌+◌, ◌^◌, ◌<◌, length};
ghost use Rattle.hb_base.specs.Outcome.{Answers, Merges};
ghost use Rattle.hb_records.specs.Entries.{one_more};
ghost use Rattle.hb_records.specs.Prefix.{prefix_in};
ghost use Rattle.hb_records.specs.Rule.{texts_span, prefixes_span, ports_span, match_span, match_number};
ghost use Rattle.hb_records.specs.Rule.{match_in, clause_in, rule_in};
ghost use Rattle.hb_records.specs.StringMatch.{string_match_in};

use crate::entries::check_room;
use crate::fault::RecordFault;
use crate::numbers::{take_number, take_packed};
use crate::prefix::read_prefix;
use crate::string_match::{StringMatch, read_string_match};
use hb_base::{Cidr, List, Or};
use hb_message::{Message, add, read_whole};
use hb_wire::{Field, FieldValue};
use std::alloc::Global;

/// One match of a clause: each attribute has to be met.
#[derive(Drop)]
pub struct Match {
    pub namespaces: List<StringMatch>,
    pub not_namespaces: List<StringMatch>,
    pub principals: List<StringMatch>,
    pub not_principals: List<StringMatch>,
    pub source_ips: List<Cidr>,
    pub not_source_ips: List<Cidr>,
    pub destination_ips: List<Cidr>,
    pub not_destination_ips: List<Cidr>,
    pub destination_ports: List<u32>,
    pub not_destination_ports: List<u32>,
}

/// A clause of a rule: one of its matches has to be met.
#[derive(Drop)]
pub struct Clause {
    pub matches: List<Match>,
}

/// A rule of a policy: all its clauses have to be met.
#[derive(Drop)]
pub struct Rule {
    pub clauses: List<Clause>,
}

impl Message for Match {
    ghost use Rattle.hb_records.specs.Rule.{match_merged};

    type Fault = RecordFault;

    ghost merged = { match_merged };

    fn merge(&mut self, alloc: Global, field: Field<'_>) -> Result<(), Or<RecordFault>> {
        match field.value {
            FieldValue::Span(bytes) => self.take_span(alloc, field.number, field.at, bytes),
            FieldValue::Varint(n) => self.take_port(field.number, n),
            _ => Ok(()),
        }
    }
}

impl Match {
    fn take_span(
        &mut self,
        alloc: Global,
        number: u32,
        at: usize,
        bytes: &[u8],
    ) -> Result<(), Or<RecordFault>>
        requires { at + length bytes.now < 2 ^ 64 }
        ensures { Merges (match_span self.old number at bytes.now) self.new result }
    {
        if number <= 4 {
            return self.take_string_match(alloc, number, at, bytes);
        }
        if number <= 8 {
            return self.take_prefix(alloc, number, at, bytes);
        }
        self.take_packed_ports(number, at, bytes)
    }

    fn take_string_match(
        &mut self,
        alloc: Global,
        number: u32,
        at: usize,
        bytes: &[u8],
    ) -> Result<(), Or<RecordFault>>
        requires { at + length bytes.now < 2 ^ 64 }
        ensures { Merges (texts_span self.old number at bytes.now) self.new result }
    {
        match number {
            1 => more_texts(alloc, 1, at, bytes, &mut self.namespaces),
            2 => more_texts(alloc, 2, at, bytes, &mut self.not_namespaces),
            3 => more_texts(alloc, 3, at, bytes, &mut self.principals),
            4 => more_texts(alloc, 4, at, bytes, &mut self.not_principals),
            _ => Ok(()),
        }
    }

    fn take_prefix(
        &mut self,
        alloc: Global,
        number: u32,
        at: usize,
        bytes: &[u8],
    ) -> Result<(), Or<RecordFault>>
        requires { at + length bytes.now < 2 ^ 64 }
        ensures { Merges (prefixes_span self.old number at bytes.now) self.new result }
    {
        match number {
            5 => more_prefixes(alloc, 5, at, bytes, &mut self.source_ips),
            6 => more_prefixes(alloc, 6, at, bytes, &mut self.not_source_ips),
            7 => more_prefixes(alloc, 7, at, bytes, &mut self.destination_ips),
            8 => more_prefixes(alloc, 8, at, bytes, &mut self.not_destination_ips),
            _ => Ok(()),
        }
    }

    fn take_packed_ports(
        &mut self,
        number: u32,
        at: usize,
        bytes: &[u8],
    ) -> Result<(), Or<RecordFault>>
        requires { at + length bytes.now < 2 ^ 64 }
        ensures { Merges (ports_span self.old number (record { at = at; left = bytes.now })) self.new result }
    {
        match number {
            9 => take_packed(9, at, bytes, &mut self.destination_ports),
            10 => take_packed(10, at, bytes, &mut self.not_destination_ports),
            _ => Ok(()),
        }
    }

    fn take_port(&mut self, number: u32, n: u64) -> Result<(), Or<RecordFault>>
        ensures { Merges (match_number self.old number n) self.new result }
    {
        match number {
            9 => take_number(9, n, &mut self.destination_ports),
            10 => take_number(10, n, &mut self.not_destination_ports),
            _ => Ok(()),
        }
    }
}

/// One more string match of the field `field`.
fn more_texts(
    alloc: Global,
    field: u32,
    at: usize,
    bytes: &[u8],
    values: &mut List<StringMatch>,
) -> Result<(), Or<RecordFault>>
    requires { at + length bytes.now < 2 ^ 64 }
    ensures { Merges (one_more field values.old (string_match_in field at bytes.now)) values.new result }
{
    check_room(field, values)?;
    add(values, read_string_match(alloc, field, at, bytes)?)
}

/// One more prefix of the field `field`.
fn more_prefixes(
    alloc: Global,
    field: u32,
    at: usize,
    bytes: &[u8],
    values: &mut List<Cidr>,
) -> Result<(), Or<RecordFault>>
    requires { at + length bytes.now < 2 ^ 64 }
    ensures { Merges (one_more field values.old (prefix_in field at bytes.now)) values.new result }
{
    check_room(field, values)?;
    add(values, read_prefix(alloc, field, at, bytes)?)
}

impl Message for Clause {
    ghost use Rattle.hb_records.specs.Rule.{clause_merged};

    type Fault = RecordFault;

    ghost merged = { clause_merged };

    fn merge(&mut self, alloc: Global, field: Field<'_>) -> Result<(), Or<RecordFault>> {
        match field.value {
            FieldValue::Span(bytes) if field.number == 2 => {
                check_room(2, &self.matches)?;
                add(&mut self.matches, read_match(alloc, field.at, bytes)?)
            }
            _ => Ok(()),
        }
    }
}

impl Message for Rule {
    ghost use Rattle.hb_records.specs.Rule.{rule_merged};

    type Fault = RecordFault;

    ghost merged = { rule_merged };

    fn merge(&mut self, alloc: Global, field: Field<'_>) -> Result<(), Or<RecordFault>> {
        match field.value {
            FieldValue::Span(bytes) if field.number == 2 => {
                check_room(2, &self.clauses)?;
                add(&mut self.clauses, read_clause(alloc, field.at, bytes)?)
            }
            _ => Ok(()),
        }
    }
}

/// The match of `bytes`, which stand at place `at`.
#[tactic(auto, unfolding(crate::specs::Rule::match_in))]
fn read_match(alloc: Global, at: usize, bytes: &[u8]) -> Result<Match, Or<RecordFault>>
    requires { at + length bytes.now < 2 ^ 64 }
    ensures { Answers result (match_in at bytes.now) }
{
    let unread = Match {
        namespaces: List::new(alloc),
        not_namespaces: List::new(alloc),
        principals: List::new(alloc),
        not_principals: List::new(alloc),
        source_ips: List::new(alloc),
        not_source_ips: List::new(alloc),
        destination_ips: List::new(alloc),
        not_destination_ips: List::new(alloc),
        destination_ports: List::new(alloc),
        not_destination_ports: List::new(alloc),
    };
    read_whole(alloc, bytes, at, unread)
}

/// The clause of `bytes`, which stand at place `at`.
#[tactic(auto, unfolding(crate::specs::Rule::clause_in))]
fn read_clause(alloc: Global, at: usize, bytes: &[u8]) -> Result<Clause, Or<RecordFault>>
    requires { at + length bytes.now < 2 ^ 64 }
    ensures { Answers result (clause_in at bytes.now) }
{
    let unread = Clause {
        matches: List::new(alloc),
    };
    read_whole(alloc, bytes, at, unread)
}

/// The rule of `bytes`, which stand at place `at`.
///
/// Errors: the first `RecordFault` in order of bytes, depth first; and `NoMemory`.
#[tactic(auto, unfolding(crate::specs::Rule::rule_in))]
pub fn read_rule(alloc: Global, at: usize, bytes: &[u8]) -> Result<Rule, Or<RecordFault>>
    requires { at + length bytes.now < 2 ^ 64 }
    ensures { Answers result (rule_in at bytes.now) }
{
    let unread = Rule {
        clauses: List::new(alloc),
    };
    read_whole(alloc, bytes, at, unread)
}
