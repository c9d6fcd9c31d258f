//! What is held where memory was wanting in a response: what some front of its changes leaves.

use crate::told::{nothing_held, text_of};
use hb_base::{Bytes, Ip, List, NoMemory, Text};
use hb_disco::{Kind, Resource, Response};
use hb_held::Held;
use std::alloc::Global;
use std::process::Abort;

/// Workloads of the network `net` that serve `a/b`, at 10.0.0.5 to 10.0.0.8.
const AT_5: &[u8] = b"\x0a\x13\x22\x03net\x1a\x04\x0a\x00\x00\x05\xb2\x01\x05\x0a\x03a/b";

const AT_6: &[u8] = b"\x0a\x13\x22\x03net\x1a\x04\x0a\x00\x00\x06\xb2\x01\x05\x0a\x03a/b";

const AT_7: &[u8] = b"\x0a\x13\x22\x03net\x1a\x04\x0a\x00\x00\x07\xb2\x01\x05\x0a\x03a/b";

const AT_8: &[u8] = b"\x0a\x13\x22\x03net\x1a\x04\x0a\x00\x00\x08\xb2\x01\x05\x0a\x03a/b";

fn push(
    rt: &impl Abort,
    alloc: Global,
    resources: &mut List<Resource>,
    name: &[u8],
    record: &[u8],
) {
    let value = Vec::from_slice(alloc, record).expect(rt, "memory");
    let resource = Resource {
        name: text_of(rt, alloc, name),
        version: text_of(rt, alloc, b"1"),
        type_url: text_of(rt, alloc, Kind::Address.type_url()),
        value: Bytes::from_vec(value),
    };
    resources.push(resource).expect(rt, "memory");
}

/// A response of addresses that removes a name.
fn removing(rt: &impl Abort, alloc: Global, name: &[u8]) -> Response {
    let mut removed = List::new(alloc);
    removed.push(text_of(rt, alloc, name)).expect(rt, "memory");
    Response {
        kind: Kind::Address,
        resources: List::new(alloc),
        removed,
        nonce: Text::empty(alloc),
    }
}

/// Has `v` at 10.0.0.5 and `w` at 10.0.0.6 held.
fn begin(rt: &impl Abort, alloc: Global, held: &mut Held) {
    let mut response = removing(rt, alloc, b"x");
    push(rt, alloc, &mut response.resources, b"v", AT_5);
    push(rt, alloc, &mut response.resources, b"w", AT_6);
    let _ = held.apply(alloc, &response).expect(rt, "memory");
}

/// A response that removes `v`, moves `w` to 10.0.0.7, and has `x` at 10.0.0.8.
fn next(rt: &impl Abort, alloc: Global) -> Response {
    let mut response = removing(rt, alloc, b"v");
    push(rt, alloc, &mut response.resources, b"w", AT_7);
    push(rt, alloc, &mut response.resources, b"x", AT_8);
    response
}

fn is_at(held: &Held, last: u32) -> bool {
    held.workload_at(Ip::V4((10 << 24) | last)).is_some()
}

/// Which of the four addresses have a workload.
fn found(held: &Held) -> [bool; 4] {
    [
        is_at(held, 5),
        is_at(held, 6),
        is_at(held, 7),
        is_at(held, 8),
    ]
}

/// How many workloads serve `a/b`.
fn count_served(held: &Held, namespace: &Text, hostname: &Text) -> usize {
    let mut endpoints = held.endpoints(namespace, hostname);
    let mut count = 0usize;
    while let Some(_found) = endpoints.next() {
        count = count.wrapping_add(1);
    }
    count
}

/// What is found after none of its changes, after the first, and so on.
const FRONTS: [[bool; 4]; 4] = [
    [true, true, false, false],
    [false, true, false, false],
    [false, false, true, false],
    [false, false, true, true],
];

fn check_front(rt: &impl Abort, held: &Held, namespace: &Text, hostname: &Text) {
    let stands = found(held);
    let mut fronts = 0usize;
    for front in FRONTS {
        if front == stands {
            fronts = fronts.wrapping_add(1);
        }
    }
    assert!(rt; fronts == 1, "no front");
    let mut standing = 0usize;
    for stands in stands {
        if stands {
            standing = standing.wrapping_add(1);
        }
    }
    assert!(rt; held.count() == standing, "another count");
    assert!(rt;
        count_served(held, namespace, hostname) == standing,
        "other endpoints"
    );
}

/// Applies the response, and says whether memory was wanting; what is held then is a front of it.
fn is_wanting(
    rt: &impl Abort,
    alloc: Global,
    held: &mut Held,
    response: &Response,
    service: (&Text, &Text),
) -> bool {
    let wanting = match held.apply(alloc, response) {
        Ok(outcome) => outcome.applied != 2,
        Err(NoMemory) => true,
    };
    assert!(rt; held.is_settled() != wanting, "settled");
    check_front(rt, held, service.0, service.1);
    wanting
}

/// How many names and versions there are, or none where memory was wanting.
fn count_versions(alloc: Global, held: &Held) -> usize {
    match held.versions(alloc, Kind::Address) {
        Ok(versions) => versions.len(),
        Err(NoMemory) => 0,
    }
}

/// All of the response is held, behind a second try where memory was wanting in the first.
fn assert_fronts(
    rt: &impl Abort,
    alloc: Global,
    held: &mut Held,
    response: &Response,
    service: (&Text, &Text),
) {
    let wanting = is_wanting(rt, alloc, held, response, service);
    if wanting {
        assert!(rt;
            !is_wanting(rt, alloc, held, response, service),
            "wanting again"
        );
    }
    assert!(rt; found(held) == [false, false, true, true], "not all");
    let versions = count_versions(alloc, held);
    assert!(rt;
        versions == 2 || (!wanting && count_versions(alloc, held) == 2),
        "versions"
    );
}

#[test]
fn a_front_stands_where_memory_was_wanting(rt: HostRuntime) {
    let alloc = rt.alloc();
    let service = (text_of(&rt, alloc, b"a"), text_of(&rt, alloc, b"b"));
    let response = next(&rt, alloc);
    let mut held = nothing_held(&rt, alloc);
    begin(&rt, alloc, &mut held);
    assert_fronts(&rt, alloc, &mut held, &response, (&service.0, &service.1));
}
