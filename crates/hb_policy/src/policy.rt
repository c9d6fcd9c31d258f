//! What a policy says of a connection.

ghost use Rattle.std.specs.Prelude.{◌≡◌};
ghost use Rattle.hb_policy.specs.Policy.{match_met, clause_met, rule_met, fires, first_rule};

use crate::attribute::{NamespaceOf, PrincipalOf, is_avoided, is_met};
use hb_base::{Peer, Target};
use hb_records::{Authorization, Clause, Match, Rule};

/// All attributes of a match are met.
fn is_match_met(m: &Match, peer: &Peer, target: Target) -> bool
    ensures { result ≡ match_met (record { peer = peer.now; target = target }) m.now }
{
    let namespace = NamespaceOf(peer);
    let principal = PrincipalOf(peer);
    is_met(&namespace, &m.namespaces)
        && is_avoided(&namespace, &m.not_namespaces)
        && is_met(&principal, &m.principals)
        && is_avoided(&principal, &m.not_principals)
        && is_met(&peer.ip, &m.source_ips)
        && is_avoided(&peer.ip, &m.not_source_ips)
        && is_met(&target.ip, &m.destination_ips)
        && is_avoided(&target.ip, &m.not_destination_ips)
        && is_met(&target.port, &m.destination_ports)
        && is_avoided(&target.port, &m.not_destination_ports)
}

fn is_clause_met(clause: &Clause, peer: &Peer, target: Target) -> bool
    ensures { result ≡ clause_met (record { peer = peer.now; target = target }) clause.now }
{
    clause
        .matches
        .as_slice()
        .iter()
        .any(|m| is_match_met(m, peer, target))
}

fn is_rule_met(rule: &Rule, peer: &Peer, target: Target) -> bool
    ensures { result ≡ rule_met (record { peer = peer.now; target = target }) rule.now }
{
    rule.clauses
        .as_slice()
        .iter()
        .all(|clause| is_clause_met(clause, peer, target))
}

/// Whether a policy fires for a connection of `peer` to `target`: one of its rules is met. A rule is met where all of
/// its clauses are, a clause where one of its matches is, and a match where all of its attributes are.
pub fn fires(a: &Authorization, peer: &Peer, target: Target) -> bool
    ensures { result ≡ fires (record { peer = peer.now; target = target }) a.now }
{
    a.rules
        .as_slice()
        .iter()
        .any(|rule| is_rule_met(rule, peer, target))
}

/// The number of the first rule of a policy that a connection of `peer` to `target` meets, from 0; `None` where the policy doesn't fire.
pub fn first_rule(a: &Authorization, peer: &Peer, target: Target) -> Option<usize>
    ensures { result ≡ first_rule (record { peer = peer.now; target = target }) a.now }
{
    a.rules
        .as_slice()
        .iter()
        .position(|rule| is_rule_met(rule, peer, target))
}
