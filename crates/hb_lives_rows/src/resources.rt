//! What a node is told of resources.

use crate::words::octets_of;
use hb_base::Text;
use hb_disco::{Response, read_response};
use hb_held::{Held, OwnDoors};
use std::alloc::Global;
use std::process::Abort;

pub fn text(rt: &impl Abort, alloc: Global, bytes: &[u8]) -> Text {
    let text = Text::of(alloc, bytes).ok().expect(rt, "memory");
    text.expect(rt, "a text")
}

/// What the node n1 with these doors holds, which was told nothing.
pub fn nothing_held(rt: &impl Abort, alloc: Global, doors: OwnDoors) -> Held {
    let network = text(rt, alloc, b"");
    let node = text(rt, alloc, b"n1");
    Held::new(alloc, network, node, doors)
}

fn response_of(rt: &impl Abort, alloc: Global, words: &str) -> Response {
    let octets = octets_of(rt, alloc, words);
    let response = read_response(alloc, octets.as_slice());
    response.ok().expect(rt, "a response")
}

/// The response of these octets comes.
pub fn apply(rt: &impl Abort, alloc: Global, held: &mut Held, words: &str) {
    let response = response_of(rt, alloc, words);
    let applied = held.apply(alloc, &response);
    applied.ok().expect(rt, "memory");
}
