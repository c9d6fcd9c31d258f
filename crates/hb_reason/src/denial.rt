//! Why a peer was denied, by what is held.

ghost use Rattle.std.specs.Prelude.{◌≡◌, filter, length};
ghost use Rattle.std.specs.List.{find};
ghost use Rattle.std.specs.Option.{option_copied, option_map};
ghost use Rattle.hb_audit.specs.Told.{reason_as};
ghost use Rattle.hb_held.specs.Policies.{policies_for};
ghost use Rattle.hb_reason.specs.Denial.{denies, allows, denial, reason_beside};

use hb_audit::Reason;
use hb_base::{Note, Peer, Target};
use hb_held::Held;
use hb_policy::fires;
use hb_records::{Action, Authorization, Workload};
use hb_table::{Judged, judge};

/// Whether a policy denies, and fires for a connection of `peer` to `target`.
fn denies(policy: &Authorization, peer: &Peer, target: Target) -> bool
    ensures { result ≡ denies (record { peer = peer.now; target = target }) policy.now }
{
    match policy.action {
        Action::Deny => fires(policy, peer, target),
        Action::Allow => false,
    }
}

fn allows(policy: &Authorization) -> bool
    ensures { result ≡ allows policy.now }
{
    match policy.action {
        Action::Deny => false,
        Action::Allow => true,
    }
}

/// The first policy for a workload that denies and fires.
fn first_denial<'a>(
    held: &'a Held,
    workload: &'a Workload,
    peer: &Peer,
    target: Target,
) -> Option<&'a Authorization>
    ensures { option_copied result ≡ find (denies (record { peer = peer.now; target = target })) (policies_for held.now workload.now) }
{
    let mut policies = held.policies_for(workload);
    while let Some(policy) = policies.next() {
        if denies(policy, peer, target) {
            return Some(policy);
        }
    }
    None
}

/// How many policies for a workload allow.
fn allowing(held: &Held, workload: &Workload) -> usize
    ensures { result ≡ length (filter allows (policies_for held.now workload.now)) }
{
    let _all = held.count();
    let mut many = 0;
    let mut policies = held.policies_for(workload);
    while let Some(policy) = policies.next() {
        if allows(policy) {
            many += 1;
        }
    }
    many
}

/// Why the policies of the workload at a target deny a peer; `None` where they don't, or it is no workload of this node.
fn denial<'a>(held: &'a Held, peer: &Peer, target: Target) -> Option<Reason<'a>>
    ensures { option_map reason_as result ≡ denial held.now peer.now target }
{
    match judge(held, peer, target) {
        Judged::Denied => {}
        Judged::Admitted | Judged::Unknown => return None,
    }
    let found = held.known(target.ip)?;
    Some(match first_denial(held, found.workload, peer, target) {
        Some(policy) => Reason::DeniedBy {
            namespace: &policy.namespace,
            name: &policy.name,
        },
        None => Reason::NoneAllows(allowing(held, found.workload)),
    })
}

/// What is told beside a note: of a 401 with a target why the policies held deny its peer. `None` of each other note, and where they admit
/// it or the target is no workload of this node.
pub fn reason_beside<'a>(held: &'a Held, note: &Note) -> Option<Reason<'a>>
    ensures { option_map reason_as result ≡ reason_beside held.now note.now }
{
    match note {
        Note::Verdict {
            status,
            peer,
            target: Some(target),
            ..
        } if *status == 401 => denial(held, peer, *target),
        _ => None,
    }
}
