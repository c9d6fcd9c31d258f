//! What is answered by what is held.

ghost use Rattle.std.specs.Prelude.{◌≡◌};
ghost use Rattle.hb_verdict.specs.Verdict.{is_unspecified, reaches, is_at, is_own_door, leads_back, dial_admitted, dial_for, verdict};

use crate::request::Request;
use hb_base::{Ip, Peer, Target};
use hb_held::Held;
use hb_table::{Judged, judge};

/// What a request on a stream of an inbound link is answered.
#[derive(Clone, Copy)]
pub enum Verdict {
    /// This status (RFC 9110 section 15), with the end of the stream.
    Status(u16),
    /// RST_STREAM with PROTOCOL_ERROR.
    Reset,
    /// The target is dialled; the answer is due when that is known.
    Dial(Target),
}

/// Whether it is the unspecified address (RFC 4291 section 2.5.2): what listens there is reached at each address, and who connects to it
/// reaches the machine itself.
pub fn is_unspecified(ip: Ip) -> bool
    ensures { result ≡ is_unspecified ip }
{
    match ip {
        Ip::V4(n) => n == 0,
        Ip::V6(n) => n == 0,
    }
}

/// Whether who connects to the target reaches the door that listens there.
fn reaches(target: Target, door: Target) -> bool
    ensures { result ≡ reaches target door }
{
    door.port == target.port && (is_unspecified(door.ip) || door.ip == target.ip)
}

/// Whether who connects to the target reaches this door, where there is one.
fn is_at(target: Target, door: Option<Target>) -> bool
    ensures { result ≡ is_at door target }
{
    match door {
        Some(door) => reaches(target, door),
        None => false,
    }
}

/// Whether the target is one of the node's own doors.
fn is_own_door(held: &Held, target: Target) -> bool
    ensures { result ≡ is_own_door held.now.doors target }
{
    let doors = held.doors();
    is_at(target, doors.inbound) || is_at(target, doors.outbound) || is_at(target, doors.plain)
}

/// Whether the target leads back to the node: its address is the unspecified one, or it is one of the node's own doors. Nothing is dialled
/// there.
pub fn leads_back(held: &Held, target: Target) -> bool
    ensures { result ≡ leads_back held.now.doors target }
{
    is_unspecified(target.ip) || is_own_door(held, target)
}

/// The target admits the peer. It doesn't lead back to the node, and there is a place for the tunnel.
fn dial_admitted(back: bool, full: bool, target: Target) -> Verdict
    ensures { result ≡ dial_admitted back full target }
{
    if back {
        Verdict::Status(400)
    } else if full {
        Verdict::Status(503)
    } else {
        Verdict::Dial(target)
    }
}

/// The target is known and admits the peer.
fn dial_for(held: &Held, peer: &Peer, target: Target, full: bool) -> Verdict
    ensures { result ≡ dial_for held.now peer.now target full }
{
    if !held.synced() {
        return Verdict::Status(503);
    }
    match judge(held, peer, target) {
        Judged::Unknown => Verdict::Status(404),
        Judged::Denied => Verdict::Status(401),
        Judged::Admitted => dial_admitted(leads_back(held, target), full, target),
    }
}

/// The answer to a request of this peer, by the resources held; `full`: no place is left for a tunnel. Of a tunnel the first of
/// these that applies: 503 where the control plane hasn't told workloads and policies yet, 404 where the target is no workload of
/// this node, 401 where its policies refuse the peer, 400 where it leads back to the node, at the unspecified address or one of its doors
/// (whoever reaches one is believed who a connection comes from), 503 where no place is left, else its target is dialled.
pub fn verdict_on(request: Request, held: &Held, peer: &Peer, full: bool) -> Verdict
    ensures { result ≡ verdict request held.now peer.now full }
{
    match request {
        Request::Refused(status) => Verdict::Status(status),
        Request::Malformed => Verdict::Reset,
        Request::Connect(target) => dial_for(held, peer, target, full),
    }
}
