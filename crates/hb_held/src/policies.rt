//! Which policies are for a workload.

ghost use Rattle.std.specs.Prelude.{◌≡◌};
ghost use Rattle.std.specs.FinMap.{get};
ghost use Rattle.std.specs.Iterator.{YieldsFirstRef, item_count};
ghost use Rattle.std.specs.List.{list_any};
ghost use Rattle.std.specs.Option.{option_copied};
ghost use Rattle.std.specs.Str.{bytes_eq};
ghost use Rattle.hb_index.specs.Named.{IsFirstBehind};
ghost use Rattle.hb_held.specs.Asked.{asks_for, lesser_name};
ghost use Rattle.hb_held.specs.Policies.{selector_name, is_for, policy_for, policies_for, policies_left};

use crate::held::Held;
use crate::joined::is_joined;
use crate::numbers::text_number;
use crate::versioned::Versioned;
use hb_base::{List, Text};
use hb_index::Indexed;
use hb_records::{Authorization, Reach, Workload};

fn is_listed(names: &List<Text>, policy: &Authorization) -> bool
    ensures { result ≡ list_any (λ name. bytes_eq name (selector_name policy.now)) names.now }
{
    names.as_slice().iter().any(|name| is_joined(
        name.as_slice(),
        policy.namespace.as_slice(),
        policy.name.as_slice(),
    ))
}

/// The policy is for the workload: for all of the mesh, for those of its namespace, or for those that
/// name it.
pub(crate) fn is_for(workload: &Workload, policy: &Authorization) -> bool
    ensures { result ≡ is_for workload.now policy.now }
{
    match policy.scope {
        Reach::Global => true,
        Reach::Namespace => policy.namespace.as_slice() == workload.namespace.as_slice(),
        Reach::Selector => is_listed(&workload.authorization_policies, policy),
    }
}

/// The policy under a name, where it is for the workload.
fn policy_for<'a>(
    policies: &'a Indexed<Versioned<Authorization>>,
    workload: &Workload,
    name: &Text,
) -> Option<&'a Authorization>
    ensures { option_copied result ≡ policy_for workload.now (get policies.now.now name.now) }
{
    let held = policies.now().get(name)?;
    if is_for(workload, &held.content) {
        Some(&held.content)
    } else {
        None
    }
}

/// The one of two names that goes first, by bytes.
fn lesser<'a>(a: Option<&'a Text>, b: Option<&'a Text>) -> Option<&'a Text>
    ensures { option_copied result ≡ lesser_name (option_copied a.entry) (option_copied b.entry) }
{
    let Some(first) = a else {
        return b;
    };
    let Some(other) = b else {
        return a;
    };
    if other < first { b } else { a }
}

/// Of the names of policies that the workload may ask for the first behind `name`, by bytes, or the first of all.
fn first_asked<'a>(
    policies: &'a Indexed<Versioned<Authorization>>,
    workload: &Workload,
    name: Option<&Text>,
) -> Option<&'a Text>
    ensures { IsFirstBehind (asks_for workload.now policies.now.now) (option_copied name.entry) (option_copied result) }
{
    let everywhere = policies.first_behind(text_number(b""), name);
    let namespace = text_number(workload.namespace.as_slice());
    let mut first = lesser(everywhere, policies.first_behind(namespace, name));
    for key in workload.authorization_policies.as_slice() {
        let number = text_number(key.as_slice());
        first = lesser(first, policies.first_behind(number, name));
    }
    first
}

/// The policies held that are for a workload, each once, by their resources' names. Takes no memory.
#[derive(Drop)]
pub struct Policies<'a> {
    policies: &'a Indexed<Versioned<Authorization>>,
    workload: &'a Workload,
    /// The name that was looked at last.
    last: Option<&'a Text>,
}

impl<'a> Iterator for Policies<'a> {
    type Item = &'a Authorization;

    ghost next_gives = { YieldsFirstRef policies_left };

    ghost remaining = { item_count policies_left };

    fn next(&mut self) -> Option<&'a Authorization> {
        while let Some(name) = first_asked(self.policies, self.workload, self.last) {
            self.last = Some(name);
            if let Some(policy) = policy_for(self.policies, self.workload, name) {
                return Some(policy);
            }
        }
        None
    }
}

impl Held {
    /// The policies held that are for the workload: those for all, those for its namespace, and those that it asks for
    /// by `namespace/name`; each once, by their resources' names. A policy that isn't held counts for nothing.
    pub fn policies_for<'a>(&'a self, workload: &'a Workload) -> Policies<'a>
        ensures { policies_left result ≡ policies_for self.now workload.now }
    {
        Policies {
            policies: &self.policies,
            workload,
            last: None,
        }
    }
}
