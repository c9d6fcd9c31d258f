//! What requests for tunnels are answered, by the resources held.

use crate::resources::{apply_all, held_behind};
use hb_base::{Ip, Peer, Target, read_identity, read_target};
use hb_held::{Held, OwnDoors};
use hb_table::{Judged, judge};
use hb_verdict::{Request, Verdict, verdict_on};
use std::alloc::Global;
use std::process::Abort;

/// Responses, a target, whether a place is left, where the node's own door for tunnels listens, and the answer to a peer of the identity
/// that `ALLOW` names.
const ROWS: &str = "\
| 10.0.0.7:8080 left none 503
U1 | 10.0.0.7:8080 left none 503
DENY | 10.0.0.7:8080 left none 503
U1, DENY ELSEWHERE | 10.0.0.7:8080 left none dial
U1, DENY ELSEWHERE | 10.0.0.7:8080 full none 503
U1, DENY ELSEWHERE | 10.0.0.8:8080 left none 404
U1, DENY ELSEWHERE | 10.0.0.8:8080 full none 404
U1, ALLOW | 10.0.0.7:8080 left none dial
U1, DENY | 10.0.0.7:8080 left none 401
U1, DENY | 10.0.0.7:8080 full none 401
U1, ALLOW, DENY | 10.0.0.7:8080 left none 401
U1, NEVER | 10.0.0.7:1 left none 401
U1, ALLOW, GONE | 10.0.0.7:8080 left none 404
U1 MOVED, ALLOW | 10.0.0.7:8080 left none 404
U1, ALLOW | 10.0.0.7:8080 left 10.0.0.7:8080 400
U1, ALLOW | 10.0.0.7:8080 full 10.0.0.7:8080 400
U1, ALLOW | 10.0.0.7:8080 left 0.0.0.0:8080 400
U1, ALLOW | 10.0.0.7:8080 left [::]:8080 400
U1, ALLOW | 10.0.0.7:8080 left [::ffff:10.0.0.7]:8080 400
U1, ALLOW | 10.0.0.7:8080 left 0.0.0.0:8081 dial
U1, ALLOW | 10.0.0.7:8080 left 10.0.0.7:8081 dial
U1, ALLOW | 10.0.0.7:8080 left 10.0.0.8:8080 dial
U1, ALLOW | 10.0.0.7:8080 left 127.0.0.1:8080 dial
U1, ALLOW | 10.0.0.7:8080 left [::1]:8080 dial
U1, ALLOW | 10.0.0.7:8080 full [::1]:8080 503
U1, DENY | 10.0.0.7:8080 left 0.0.0.0:8080 401
U1, DENY ELSEWHERE | 10.0.0.8:8080 left 0.0.0.0:8080 404
U1 | 10.0.0.7:8080 left 0.0.0.0:8080 503";

/// A peer at 10.0.0.9, with this identity or none.
fn peer_of(rt: &impl Abort, alloc: Global, identity: &str) -> Peer {
    Peer {
        ip: Ip::V4(0x0a00_0009),
        identity: read_identity(alloc, identity.as_bytes()).expect(rt, "memory"),
    }
}

fn target_of(rt: &impl Abort, text: &str) -> Target {
    read_target(text.as_bytes()).ok().expect(rt, "a target")
}

fn judged(held: &Held, peer: &Peer, target: Target) -> &'static str {
    match judge(held, peer, target) {
        Judged::Admitted => "Admitted",
        Judged::Unknown => "Unknown",
        Judged::Denied => "Denied",
    }
}

fn word_of(verdict: Verdict) -> &'static str {
    match verdict {
        Verdict::Status(503) => "503",
        Verdict::Status(405) => "405",
        Verdict::Status(404) => "404",
        Verdict::Status(401) => "401",
        Verdict::Status(400) => "400",
        Verdict::Dial(_) => "dial",
        Verdict::Reset => "reset",
        _ => "other",
    }
}

fn answer(request: Request, held: &Held, peer: &Peer, is_full: bool) -> &'static str {
    word_of(verdict_on(request, held, peer, is_full))
}

/// The judgement of a target, or the answer to a request for it where a place is left or none is; or to a request that is refused or
/// malformed.
fn told_by(rt: &impl Abort, held: &Held, asked: &str, peer: &Peer, target: &str) -> &'static str {
    match asked {
        "judge" => judged(held, peer, target_of(rt, target)),
        "refused" => answer(Request::Refused(405), held, peer, true),
        "malformed" => answer(Request::Malformed, held, peer, false),
        _ => {
            let request = Request::Connect(target_of(rt, target));
            answer(request, held, peer, asked == "full")
        }
    }
}

/// The same by what a node of these doors holds after responses.
pub fn told(
    rt: &impl Abort,
    alloc: Global,
    doors: OwnDoors,
    responses: &str,
    asked: &str,
    identity: &str,
    target: &str,
) -> &'static str {
    let peer = peer_of(rt, alloc, identity);
    let mut held = held_behind(rt, alloc, doors);
    apply_all(rt, alloc, &mut held, responses);
    told_by(rt, &held, asked, &peer, target)
}

/// The doors of a node of which one listens there, whichever it is.
fn doors_of(rt: &impl Abort, door: &str) -> [OwnDoors; 3] {
    let none = OwnDoors::none();
    if door == "none" {
        return [none, none, none];
    }
    let at = Some(target_of(rt, door));
    [
        OwnDoors {
            inbound: at,
            ..none
        },
        OwnDoors {
            outbound: at,
            ..none
        },
        OwnDoors { plain: at, ..none },
    ]
}

const IDENTITY: &str = "spiffe://cluster.local/ns/a/sa/c";

fn assert_row(rt: &impl Abort, alloc: Global, row: &str) {
    let (responses, words) = row.split_once("| ").expect(rt, "responses");
    let (target, words) = words.split_once(" ").expect(rt, "a target");
    let (place, words) = words.split_once(" ").expect(rt, "a place");
    let (door, want) = words.split_once(" ").expect(rt, "a door");
    for doors in doors_of(rt, door) {
        let told = told(rt, alloc, doors, responses, place, IDENTITY, target);
        assert!(rt; told == want, "{row}: {told}");
    }
}

#[test]
fn tunnels_are_dialled_for_or_refused(rt: HostRuntime) {
    for row in ROWS.split('\n') {
        assert_row(&rt, rt.alloc(), row);
    }
}

#[test]
fn refused_requests_are_answered_whatever_is_held(rt: HostRuntime) {
    let none = OwnDoors::none();
    assert!(&rt; told(&rt, rt.alloc(), none, "", "refused", "none", "") == "405");
    assert!(&rt; told(&rt, rt.alloc(), none, "", "malformed", "none", "") == "reset");
}
