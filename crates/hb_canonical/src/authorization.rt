//! Authorization policies.

ghost use Rattle.std.specs.Prelude.{◌≡◌, ◌+◌, ◌++◌, ◌<◌, ◌≤◌, ◌^◌, ℕ, List as list, Ok, OnOk, OnErr};
ghost use Rattle.std.specs.List.{All};
ghost use Rattle.hb_wire.specs.Spelling.{IsOctet};
ghost use Rattle.hb_records.specs.Authorization.{authorization_of};
ghost use Rattle.hb_canonical.specs.Fields.{entries_of};
ghost use Rattle.hb_canonical.specs.Authorization.{canonical_authorization, reach_number, action_number};

use crate::fields::{Canonical, put_entries, put_text, put_value};
use hb_base::{Cidr, List, NoMemory};
use hb_records::{Action, Authorization, Clause, Match, Reach, Rule, StringMatch};
use hb_wire::{put_bytes, put_number, put_packed};
use std::alloc::Global;

/// Its member, also where that has no bytes.
impl Canonical for StringMatch {
    ghost use Rattle.hb_canonical.specs.Authorization.{string_match_of};

    ghost spelled = { string_match_of };

    #[tactic(auto, unfolding(crate::specs::Authorization::string_match_of))]
    fn put(&self, alloc: Global, out: &mut Vec<u8>) -> Result<(), NoMemory> {
        match self {
            StringMatch::Exact(text) => put_value(alloc, 1, text, out),
            StringMatch::Prefix(text) => put_value(alloc, 2, text, out),
            StringMatch::Suffix(text) => put_value(alloc, 3, text, out),
            StringMatch::Presence => put_bytes(alloc, 4, b"", out),
        }
    }
}

impl Canonical for Cidr {
    ghost use Rattle.hb_canonical.specs.Authorization.{prefix_of};

    ghost spelled = { prefix_of };

    #[tactic(auto, unfolding(crate::specs::Authorization::prefix_of))]
    fn put(&self, alloc: Global, out: &mut Vec<u8>) -> Result<(), NoMemory> {
        put_value(alloc, 1, &self.ip, out)?;
        put_number(alloc, 2, u64::from(self.length), out)
    }
}

/// Appends what an attribute has to be and, under the next number, what it must not be.
fn put_both<T: Canonical>(
    alloc: Global,
    number: u32,
    values: &List<T>,
    not_values: &List<T>,
    out: &mut Vec<u8>,
) -> Result<(), NoMemory>
    requires some { 1 ≤ number }
    requires small { number + 1 < 2 ^ 29 }
    ensures { OnOk result (out.new.items
        ≡ out.old.items ++ (entries_of number T.spelled values.now ++ entries_of (number + 1) T.spelled not_values.now)) }
{
    put_entries(alloc, number, values, out)?;
    put_entries(alloc, number + 1, not_values, out)
}

impl Canonical for Match {
    ghost use Rattle.hb_canonical.specs.Authorization.{match_of};

    ghost spelled = { match_of };

    #[tactic(auto, unfolding(crate::specs::Authorization::match_of))]
    fn put(&self, alloc: Global, out: &mut Vec<u8>) -> Result<(), NoMemory> {
        put_both(alloc, 1, &self.namespaces, &self.not_namespaces, out)?;
        put_both(alloc, 3, &self.principals, &self.not_principals, out)?;
        put_both(alloc, 5, &self.source_ips, &self.not_source_ips, out)?;
        put_both(
            alloc,
            7,
            &self.destination_ips,
            &self.not_destination_ips,
            out,
        )?;
        put_packed(alloc, 9, self.destination_ports.as_slice(), out)?;
        put_packed(alloc, 10, self.not_destination_ports.as_slice(), out)
    }
}

impl Canonical for Clause {
    ghost use Rattle.hb_canonical.specs.Authorization.{clause_of};

    ghost spelled = { clause_of };

    #[tactic(auto, unfolding(crate::specs::Authorization::clause_of))]
    fn put(&self, alloc: Global, out: &mut Vec<u8>) -> Result<(), NoMemory> {
        put_entries(alloc, 2, &self.matches, out)
    }
}

impl Canonical for Rule {
    ghost use Rattle.hb_canonical.specs.Authorization.{rule_of};

    ghost spelled = { rule_of };

    #[tactic(auto, unfolding(crate::specs::Authorization::rule_of))]
    fn put(&self, alloc: Global, out: &mut Vec<u8>) -> Result<(), NoMemory> {
        put_entries(alloc, 2, &self.clauses, out)
    }
}

fn reach_number(reach: Reach) -> u64
    ensures { result ≡ reach_number reach }
{
    match reach {
        Reach::Global => 0,
        Reach::Namespace => 1,
        Reach::Selector => 2,
    }
}

fn action_number(action: Action) -> u64
    ensures { result ≡ action_number action }
{
    match action {
        Action::Allow => 0,
        Action::Deny => 1,
    }
}

impl Canonical for Authorization {
    ghost use Rattle.hb_canonical.specs.Fields.{entries_of};
    ghost use Rattle.hb_canonical.specs.Authorization.{canonical_authorization};

    ghost spelled = { canonical_authorization };

    #[tactic(auto, unfolding(crate::specs::Authorization::canonical_authorization))]
    fn put(&self, alloc: Global, out: &mut Vec<u8>) -> Result<(), NoMemory> {
        put_text(alloc, 1, &self.name, out)?;
        put_text(alloc, 2, &self.namespace, out)?;
        put_number(alloc, 3, reach_number(self.scope), out)?;
        put_number(alloc, 4, action_number(self.action), out)?;
        put_entries(alloc, 5, &self.rules, out)
    }
}

/// Appends an authorization policy in its canonical spelling, from which a policy that reading gave is read again
/// (the message `Authorization` of Istio's ztunnel).
///
/// Errors: `NoMemory`, and then `out` is unchanged.
pub fn put_authorization(
    alloc: Global,
    a: &Authorization,
    out: &mut Vec<u8>,
) -> Result<(), NoMemory>
    ensures ok { OnOk result (out.new.items ≡ out.old.items ++ canonical_authorization a.now) }
    ensures err { OnErr result (out.new.items ≡ out.old.items) }
    ensures reads_back { OnOk result ((b : list ℕ) → All IsOctet b → authorization_of b ≡ Ok a.now
        → authorization_of (canonical_authorization a.now) ≡ Ok a.now) }
{
    let mut own = Vec::new(alloc);
    a.put(alloc, &mut own)?;
    out.extend_from_slice(own.as_slice())
}
