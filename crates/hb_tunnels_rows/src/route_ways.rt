//! The way of a connection by resources held and connections that are open. A test ends where memory is wanting or a word is none.

use crate::route_rows::{RECORDS, WAYS};
use crate::words::{push_words, text_in, text_of};
use hb_base::{Bytes, Ip, List, Target, put_target, read_ip};
use hb_disco::{Kind, Resource, Response};
use hb_held::{Held, OwnDoors};
use hb_route::{Opens, Route, route};
use std::alloc::Global;
use std::process::Abort;

/// The octets of the record of this name.
fn octets_of(rt: &impl Abort, alloc: Global, name: &str) -> Bytes {
    let mut octets = Vec::new(alloc);
    for line in text_in(RECORDS).lines() {
        let (first, words) = line.split_once(" ").unwrap_or((line, ""));
        if first == name {
            push_words(rt, &mut octets, words);
        }
    }
    Bytes::from_vec(octets)
}

/// A resource, as `name=record`.
fn resource_of(rt: &impl Abort, alloc: Global, word: &str) -> Resource {
    let (name, record) = word.split_once("=").expect(rt, "a record");
    Resource {
        name: text_of(rt, alloc, name.as_bytes()),
        version: text_of(rt, alloc, b"1"),
        type_url: text_of(rt, alloc, Kind::Address.type_url()),
        value: octets_of(rt, alloc, record),
    }
}

/// A response with these resources.
fn response_of(rt: &impl Abort, alloc: Global, words: &str) -> Response {
    let mut resources = List::new(alloc);
    for word in words.split_whitespace() {
        let resource = resource_of(rt, alloc, word);
        resources.push(resource).expect(rt, "memory");
    }
    Response {
        kind: Kind::Address,
        resources,
        removed: List::new(alloc),
        nonce: text_of(rt, alloc, b"x"),
    }
}

/// Applies a response with these resources.
fn apply(rt: &impl Abort, alloc: Global, held: &mut Held, words: &str) {
    let response = response_of(rt, alloc, words);
    let outcome = held.apply(alloc, &response).expect(rt, "memory");
    assert!(rt; outcome.refused.len() == 0, "refused: {words}");
}

/// A connection opens to this name, or one behind a tilde ends.
fn open(rt: &impl Abort, alloc: Global, opens: &mut Opens, word: &str) {
    let ended = word.strip_prefix("~");
    let name = text_of(rt, alloc, ended.unwrap_or(word).as_bytes());
    let open = opens.of(&name);
    if ended.is_some() {
        assert!(rt; open > 0, "ends: {word}");
        opens.drop_one(&name);
    } else {
        assert!(rt; open < 4096, "opens: {word}");
        opens.add(&name).expect(rt, "memory");
    }
}

fn open_all(rt: &impl Abort, alloc: Global, opens: &mut Opens, words: &str) {
    for word in words.split_whitespace() {
        open(rt, alloc, opens, word);
    }
}

fn push_target(rt: &impl Abort, alloc: Global, told: &mut Vec<u8>, word: &[u8], target: Target) {
    told.extend_from_slice(word).expect(rt, "memory");
    put_target(alloc, target, told).expect(rt, "memory");
}

fn push_name(rt: &impl Abort, told: &mut Vec<u8>, name: &[u8]) {
    told.push(b' ').expect(rt, "memory");
    told.extend_from_slice(name).expect(rt, "memory");
}

fn tell(rt: &impl Abort, alloc: Global, told: &mut Vec<u8>, route: &Route<'_>) {
    match route {
        Route::Gateway {
            address,
            authority,
            endpoint,
        } => {
            push_target(rt, alloc, told, b"gateway ", *address);
            push_target(rt, alloc, told, b" ", *authority);
            push_name(rt, told, endpoint.as_slice());
        }
        Route::Direct { address, endpoint } => {
            push_target(rt, alloc, told, b"direct ", *address);
            match endpoint {
                Some(name) => push_name(rt, told, name.as_slice()),
                None => push_name(rt, told, b"-"),
            }
        }
        Route::Refused(why) => {
            let text = format!(in alloc; "none {}", why.number()).expect(rt, "memory");
            told.extend_from_slice(text.as_bytes()).expect(rt, "memory");
        }
    }
}

fn ip_of(rt: &impl Abort, word: Option<&str>) -> Ip {
    let ip = read_ip(word.unwrap_or("").as_bytes());
    ip.expect(rt, "an address")
}

fn port_of(rt: &impl Abort, word: Option<&str>) -> u16 {
    let port = word.unwrap_or("").parse::<u16>().ok();
    port.expect(rt, "a port")
}

/// Tells the way of the connection that these words tell: its source, its destination and the port there, and the port of gateways.
fn tell_way(
    rt: &impl Abort,
    alloc: Global,
    told: &mut Vec<u8>,
    held: &Held,
    opens: &Opens,
    ends: &str,
) {
    let mut words = ends.split_whitespace();
    let source = ip_of(rt, words.next());
    let ip = ip_of(rt, words.next());
    let port = port_of(rt, words.next());
    let hbone_port = port_of(rt, words.next());
    let route = route(held, opens, source, Target { ip, port }, hbone_port);
    tell(rt, alloc, told, &route);
}

/// The way of a row is taken where nothing was held and nothing open before.
fn assert_way(rt: &impl Abort, alloc: Global, held: &mut Held, opens: &mut Opens, row: &str) {
    let mut parts = row.split("; ");
    apply(rt, alloc, held, parts.next().unwrap_or(""));
    open_all(rt, alloc, opens, parts.next().unwrap_or(""));
    let mut way = Vec::new(alloc);
    tell_way(rt, alloc, &mut way, held, opens, parts.next().unwrap_or(""));
    let told = text_in(way.as_slice());
    assert!(rt; told == parts.next().unwrap_or(""), "{row}: {told}");
}

fn assert_row(rt: &impl Abort, alloc: Global, row: &str) {
    let (network, node) = (text_of(rt, alloc, b"net"), text_of(rt, alloc, b"n1"));
    let mut held = Held::new(alloc, network, node, OwnDoors::none());
    let mut opens = Opens::new(alloc);
    assert_way(rt, alloc, &mut held, &mut opens, row);
}

#[test]
fn connections_take_their_ways(rt: HostRuntime) {
    for row in text_in(WAYS).lines() {
        if !row.starts_with('#') {
            assert_row(&rt, rt.alloc(), row);
        }
    }
}
