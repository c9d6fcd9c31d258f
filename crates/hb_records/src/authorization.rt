//! Authorization policies.

ghost use Rattle.std.specs.Prelude.{◌≡◌, ◌+◌, ◌^◌, ◌<◌, length};
ghost use Rattle.hb_base.specs.Outcome.{Answers, Merges};
ghost use Rattle.hb_records.specs.Authorization.{reach_of, action_of, policy_span, policy_number, authorization_of};

use crate::entries::{check_room, low_32};
use crate::fault::RecordFault;
use crate::rule::{Rule, read_rule};
use hb_base::{List, Or, Text};
use hb_message::{Message, add, read_whole, take_text};
use hb_wire::{Field, FieldValue};
use std::alloc::Global as Alloc;

/// The workloads that a policy is for: all of the mesh, those of its namespace, or those that name it.
#[derive(Clone, Copy, Debug)]
pub enum Reach {
    Global,
    Namespace,
    Selector,
}

/// What a policy does with a connection for which it fires.
#[derive(Clone, Copy, Debug)]
pub enum Action {
    Allow,
    Deny,
}

/// An authorization policy: it fires where one of its rules does.
#[derive(Drop)]
pub struct Authorization {
    pub name: Text,
    pub namespace: Text,
    pub scope: Reach,
    pub action: Action,
    pub rules: List<Rule>,
}

fn read_reach(number: u32) -> Result<Reach, RecordFault>
    ensures { result ≡ reach_of number }
{
    match number {
        0 => Ok(Reach::Global),
        1 => Ok(Reach::Namespace),
        2 => Ok(Reach::Selector),
        value => Err(RecordFault::BadEnum { field: 3, value }),
    }
}

fn read_action(number: u32) -> Result<Action, RecordFault>
    ensures { result ≡ action_of number }
{
    match number {
        0 => Ok(Action::Allow),
        1 => Ok(Action::Deny),
        value => Err(RecordFault::BadEnum { field: 4, value }),
    }
}

impl Message for Authorization {
    ghost use Rattle.hb_records.specs.Authorization.{authorization_merged};

    type Fault = RecordFault;

    ghost merged = { authorization_merged };

    fn merge(&mut self, alloc: Alloc, field: Field<'_>) -> Result<(), Or<RecordFault>> {
        match field.value {
            FieldValue::Span(bytes) => self.take_span(alloc, field.number, field.at, bytes),
            FieldValue::Varint(n) => self.take_number(field.number, n),
            _ => Ok(()),
        }
    }
}

impl Authorization {
    fn take_span(
        &mut self,
        alloc: Alloc,
        number: u32,
        at: usize,
        bytes: &[u8],
    ) -> Result<(), Or<RecordFault>>
        requires { at + length bytes.now < 2 ^ 64 }
        ensures { Merges (policy_span self.old number at bytes.now) self.new result }
    {
        match number {
            1 => take_text(alloc, 1, bytes, &mut self.name),
            2 => take_text(alloc, 2, bytes, &mut self.namespace),
            5 => {
                check_room(5, &self.rules)?;
                add(&mut self.rules, read_rule(alloc, at, bytes)?)
            }
            _ => Ok(()),
        }
    }

    fn take_number(&mut self, number: u32, n: u64) -> Result<(), Or<RecordFault>>
        ensures { Merges (policy_number self.old number n) self.new result }
    {
        match number {
            3 => self.scope = read_reach(low_32(n)).map_err(Or::Fault)?,
            4 => self.action = read_action(low_32(n)).map_err(Or::Fault)?,
            _ => {}
        }
        Ok(())
    }
}

/// Reads an authorization policy: the message `Authorization` of Istio's ztunnel.
///
/// Errors: the first `RecordFault` in order of bytes, depth first; and `NoMemory`.
#[tactic(auto, unfolding(crate::specs::Authorization::authorization_of))]
pub fn read_authorization(alloc: Alloc, bytes: &[u8]) -> Result<Authorization, Or<RecordFault>>
    ensures { Answers result (authorization_of bytes.now) }
{
    let unread = Authorization {
        name: Text::empty(alloc),
        namespace: Text::empty(alloc),
        scope: Reach::Global,
        action: Action::Allow,
        rules: List::new(alloc),
    };
    read_whole(alloc, bytes, 0, unread)
}
