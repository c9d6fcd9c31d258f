//! Headers that are written.

use crate::front_rows::WRITTEN;
use crate::words::bytes_of;
use hb_base::{Identity, Target, Text, read_identity, read_ip};
use hb_front::{may_be_sent, put_front};
use std::alloc::Global;
use std::process::Abort;

fn target_of(rt: &impl Abort, ip: Option<&str>, port: Option<&str>) -> Target {
    let ip = read_ip(ip.unwrap_or("").as_bytes()).expect(rt, "an address");
    let port = port.unwrap_or("").parse::<u16>().ok().expect(rt, "a port");
    Target { ip, port }
}

/// What is written behind one byte for the ends and the identity of a row.
fn written(rt: &impl Abort, alloc: Global, row: &str) -> Vec<u8> {
    let mut words = row.split_whitespace();
    let source = target_of(rt, words.next(), words.next());
    let destination = target_of(rt, words.next(), words.next());
    let text = words.next().unwrap_or("-");
    let identity = read_identity(alloc, text.as_bytes()).expect(rt, "memory");
    let mut bytes = Vec::new(alloc);
    bytes.push(7).expect(rt, "memory");
    match &identity {
        Some(identity) if may_be_sent(identity) => {
            put_front(alloc, source, destination, Some(identity), &mut bytes).expect(rt, "memory")
        }
        _ => put_front(alloc, source, destination, None, &mut bytes).expect(rt, "memory"),
    }
    bytes
}

#[test]
fn headers_are_written_behind_what_stands(rt: HostRuntime) {
    for row in WRITTEN.lines() {
        let (ends, words) = row.split_once("; ").unwrap_or((row, ""));
        let bytes = written(&rt, rt.alloc(), ends);
        let want = bytes_of(&rt, rt.alloc(), words);
        let (first, header) = bytes.as_slice().split_first().expect(&rt, "bytes");
        assert!(&rt;
            *first == 7 && header == want.as_slice(),
            "{row}: {bytes:?}"
        );
    }
}

/// An identity with a service account of so many letters.
fn long_identity(rt: &impl Abort, alloc: Global, letters: usize) -> Identity {
    let mut text = Vec::from_slice(alloc, b"spiffe://t/ns/n/sa/").expect(rt, "memory");
    for _ in 0..letters {
        text.push(b'a').expect(rt, "memory");
    }
    let identity = read_identity(alloc, text.as_slice()).expect(rt, "memory");
    identity.expect(rt, "an identity")
}

#[test]
fn identities_of_up_to_4000_bytes_may_be_sent(rt: HostRuntime) {
    let alloc = rt.alloc();
    for (letters, want) in [(1, true), (3981, true), (3982, false), (10_000, false)] {
        let identity = long_identity(&rt, alloc, letters);
        assert!(&rt; may_be_sent(&identity) == want, "{letters}");
    }
    let odd = Text::of(alloc, b"a/b")
        .expect(&rt, "memory")
        .expect(&rt, "text");
    let identity = Identity {
        service_account: odd,
        ..long_identity(&rt, alloc, 1)
    };
    assert!(&rt; !may_be_sent(&identity), "a name with a slash");
}
