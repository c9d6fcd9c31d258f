//! Is a peer admitted at a target by the resources held?

ghost use Rattle.std.specs.Prelude.{◌≡◌};
ghost use Rattle.hb_held.specs.Policies.{policies_for};
ghost use Rattle.hb_policy.specs.Policy.{admitted_by};
ghost use Rattle.hb_table.specs.Judgement.{judged};

use hb_base::{Peer, Target};
use hb_held::Held;
use hb_policy::Tally;
use hb_records::Workload;

/// What the resources held say of a peer at a target: admitted; the target is no workload of this node; or
/// its policies refuse the peer.
#[derive(Clone, Copy)]
pub enum Judged {
    Admitted,
    Unknown,
    Denied,
}

/// The policies for the workload admit the connection.
fn is_admitted(held: &Held, workload: &Workload, peer: &Peer, target: Target) -> bool
    ensures { result ≡ admitted_by (record { peer = peer.now; target = target }) (policies_for held.now workload.now) }
{
    let mut tally = Tally::new();
    let mut policies = held.policies_for(workload);
    while let Some(policy) = policies.next() {
        tally.count(policy, peer, target);
    }
    tally.admits()
}

/// Judges a peer at a target, by the resources held.
pub fn judge(held: &Held, peer: &Peer, target: Target) -> Judged
    ensures { result ≡ judged held.now peer.now target }
{
    match held.known(target.ip) {
        None => Judged::Unknown,
        Some(found) => {
            if is_admitted(held, found.workload, peer, target) {
                Judged::Admitted
            } else {
                Judged::Denied
            }
        }
    }
}
