//! Whether two notes are the same.

ghost use Rattle.std.specs.Prelude.{◌≡◌, ◌↔◌, IsTrue};

use hb_base::{Cause, Identity, Note, Peer, Target};

fn is_same_identity(a: &Identity, b: &Identity) -> bool
    ensures { IsTrue result ↔ a.now ≡ b.now }
{
    a.trust_domain == b.trust_domain
        && a.namespace == b.namespace
        && a.service_account == b.service_account
}

fn is_same_peer(a: &Peer, b: &Peer) -> bool
    ensures { IsTrue result ↔ a.now ≡ b.now }
{
    let is_same_identity = match (&a.identity, &b.identity) {
        (Some(a), Some(b)) => is_same_identity(a, b),
        (None, None) => true,
        _ => false,
    };
    a.ip == b.ip && is_same_identity
}

fn is_same_target(a: Option<Target>, b: Option<Target>) -> bool
    ensures { IsTrue result ↔ a ≡ b }
{
    match (a, b) {
        (Some(a), Some(b)) => a.ip == b.ip && a.port == b.port,
        (None, None) => true,
        _ => false,
    }
}

fn is_same_cause(a: &Cause, b: &Cause) -> bool
    ensures { IsTrue result ↔ a.now ≡ b.now }
{
    a.word() == b.word() && a.number() == b.number()
}

/// Whether two notes are the same.
pub(crate) fn is_same_note(a: &Note, b: &Note) -> bool
    ensures { IsTrue result ↔ a.now ≡ b.now }
{
    match (a, b) {
        (
            Note::Verdict {
                link,
                stream,
                status,
                peer,
                target,
            },
            Note::Verdict {
                link: other_link,
                stream: other_stream,
                status: other_status,
                peer: other_peer,
                target: other_target,
            },
        ) => {
            link == other_link
                && stream == other_stream
                && status == other_status
                && is_same_peer(peer, other_peer)
                && is_same_target(*target, *other_target)
        }
        (
            Note::End {
                link,
                stream,
                cause,
                up,
                down,
            },
            Note::End {
                link: other_link,
                stream: other_stream,
                cause: other_cause,
                up: other_up,
                down: other_down,
            },
        ) => {
            link == other_link
                && stream == other_stream
                && is_same_cause(cause, other_cause)
                && up == other_up
                && down == other_down
        }
        _ => false,
    }
}
