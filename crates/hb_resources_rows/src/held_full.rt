//! No more than 65,536 resources are held.

use crate::held_responses::apply;
use crate::told::{nothing_held, same, text_of};
use hb_base::{Bytes, List, Text};
use hb_disco::{Kind, Resource, Response};
use hb_held::Held;
use std::alloc::Global;
use std::process::Abort;

/// A policy without parts, whose name is this number.
fn numbered(rt: &impl Abort, alloc: Global, number: u32) -> Resource {
    let name = format!(in alloc; "{number}").expect(rt, "memory");
    Resource {
        name: text_of(rt, alloc, name.as_bytes()),
        version: Text::empty(alloc),
        type_url: text_of(rt, alloc, Kind::Authorization.type_url()),
        value: Bytes::from_vec(Vec::new(alloc)),
    }
}

/// So many policies.
fn many(rt: &impl Abort, alloc: Global, count: u32) -> Response {
    let mut resources = List::new(alloc);
    for number in 0..count {
        let resource = numbered(rt, alloc, number);
        resources.push(resource).expect(rt, "memory");
    }
    Response {
        kind: Kind::Authorization,
        resources,
        removed: List::new(alloc),
        nonce: Text::empty(alloc),
    }
}

/// Replacing, and adding after a removal, have room; a further name of any kind has none.
const ROWS: &str = "\
a u:w => 1 0 a.u
a v:w => 0 0 (v: full)
z x:p => 0 0 (x: full)
z u:p => 0 0 (u: full)
z u:x,hex=0b => 0 0 (u: BadType at byte 0)
z 7@2:p => 1 0 z.7
a u@2:s => 1 0 a.u
a ~x v:w => 0 0 (v: full)
z ~7 => 0 1 z.7
a v:w w:w => 1 0 a.v (w: full)
a ~v w:w v:w => 1 1 a.v a.w (v: full)";

/// Applies as many policies as leave room for one name.
fn fill(rt: &impl Abort, alloc: Global, held: &mut Held) {
    let response = many(rt, alloc, 65535);
    let outcome = held.apply(alloc, &response).expect(rt, "memory");
    assert!(rt; outcome.applied == 65535, "{}", outcome.applied);
}

fn assert_row(rt: &impl Abort, alloc: Global, held: &mut Held, row: &str) {
    let (words, want) = row.split_once(" => ").unwrap_or((row, ""));
    let mut told = String::new(alloc);
    apply(rt, alloc, held, words, &mut told);
    same(rt, row, told.as_str(), want);
}

fn assert_rows(rt: &impl Abort, alloc: Global, held: &mut Held) {
    fill(rt, alloc, held);
    for row in ROWS.lines() {
        assert_row(rt, alloc, held, row);
    }
    assert!(rt; held.count() == 65536, "{}", held.count());
}

#[test]
fn no_more_than_65536_are_held(rt: HostRuntime) {
    let mut held = nothing_held(&rt, rt.alloc());
    assert_rows(&rt, rt.alloc(), &mut held);
}
