//! `check` and `route`: what they answer by the resources that an input leaves.

ghost use Rattle.std.specs.Prelude.{◌≡◌, ◌++◌, false, IfOk, OnOk};
ghost use Rattle.std.specs.List.{flat_map};
ghost use Rattle.hb_base.specs.Outcome.{Answers};
ghost use Rattle.hb_held.specs.Policies.{policies_for};
ghost use Rattle.hb_words.specs.Asked.{question, route_seen};
ghost use Rattle.hb_words.specs.Command.{checks, routes};
ghost use Rattle.hb_cli.specs.Answer.{texts, Suits};
ghost use Rattle.hb_cli.specs.Input.{left_by};
ghost use Rattle.hb_cli.specs.Judge.{policy_line, explained, checked_by, routed_by};

use crate::answer::{Answer, line_of};
use crate::input::{Left, Refused, read_input};
use hb_base::{NoMemory, Or, Peer, Target, Text};
use hb_held::Held;
use hb_lines::{explained_line, way_line};
use hb_policy::first_rule;
use hb_records::Workload;
use hb_route::{Opens, route};
use hb_table::judge;
use hb_words::{Check, Route};
use std::alloc::Global;

/// What an input leaves at a node of a network.
fn read_untold(alloc: Global, network: &str, node: &str, input: &[u8]) -> Result<Left, Or<Refused>>
    ensures { Answers result (left_by false network.now node.now input.now) }
{
    let network = Text::of_str(alloc, network)?;
    let node = Text::of_str(alloc, node)?;
    read_input(alloc, network, node, false, input)
}

/// Adds a line of each policy that is for the workload.
fn add_policies(
    alloc: Global,
    held: &Held,
    workload: &Workload,
    peer: &Peer,
    target: Target,
    text: &mut Vec<u8>,
) -> Result<(), NoMemory>
    ensures { OnOk result (text.new.items ≡ text.old.items
        ++ flat_map (policy_line (record { peer = peer.now; target = target })) (policies_for held.now workload.now)) }
{
    let mut policies = held.policies_for(workload);
    while let Some(policy) = policies.next() {
        let line = explained_line(alloc, policy, first_rule(policy, peer, target))?;
        text.extend_from_slice(line.as_slice())?;
    }
    Ok(())
}

/// The answer, and a line of each policy that counts.
fn explained(alloc: Global, held: &Held, peer: &Peer, target: Target) -> Result<Vec<u8>, NoMemory>
    ensures { IfOk result (λ text. text.items ≡ explained held.now (record { peer = peer.now; target = target })) }
{
    let mut text = Vec::from_slice(alloc, line_of(judge(held, peer, target)))?;
    if let Some(found) = held.known(target.ip) {
        add_policies(alloc, held, found.workload, peer, target, &mut text)?;
    }
    Ok(text)
}

/// The answer of `check` by this input.
///
/// Errors: as `read_input`.
pub fn check_input(alloc: Global, check: &Check<'_>, input: &[u8]) -> Result<Answer, Or<Refused>>
    ensures text { Answers (texts result) (checked_by (question check.now) input.now) }
    ensures kind { IfOk result (λ a. Suits (checks (question check.now)) a) }
{
    let left = read_untold(alloc, check.network, check.node, input)?;
    if check.explain {
        let text = explained(alloc, &left.held, &check.peer, check.target)?;
        return Ok(Answer::Told(text));
    }
    Ok(Answer::Judged(judge(&left.held, &check.peer, check.target)))
}

/// The answer of `route` by this input: the way of a connection where none is open yet.
///
/// Errors: as `read_input`.
pub fn route_input(alloc: Global, words: &Route<'_>, input: &[u8]) -> Result<Answer, Or<Refused>>
    ensures text { Answers (texts result) (routed_by (route_seen words.now) input.now) }
    ensures kind { IfOk result (λ a. Suits (routes (route_seen words.now)) a) }
{
    let left = read_untold(alloc, words.network, words.node, input)?;
    let opens = Opens::new(alloc);
    let way = route(
        &left.held,
        &opens,
        words.source,
        words.target,
        words.hbone_port,
    );
    let text = way_line(alloc, &way)?;
    Ok(Answer::Told(text))
}
