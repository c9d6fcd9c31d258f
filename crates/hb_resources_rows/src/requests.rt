//! The bytes of requests.

use crate::disco_words::{push_words, text_in};
use crate::written::WRITTEN;
use hb_base::{List, NoMemory, Text};
use hb_disco::{Kind, NameVersion, put_answer, put_first};
use std::alloc::Global;
use std::process::Abort;

/// Requests as in `WRITTEN`, their bytes worked by hand (Protocol Buffers encoding guide): of a map's entry an empty name isn't
/// written, and an empty version is.
const BY_HAND: &[u8] = b"\
first address z1; 0a04 0a027a31 122a UA\n\
first address z1 u1=1; 0a04 0a027a31 122a UA 2a070a027531120131\n\
first authorization z1 a/p=1; 0a04 0a027a31 1230 UZ 2a080a03612f70120131\n\
first address z1 u2=2 u1=1; 0a04 0a027a31 122a UA 2a070a027531120131 2a070a027532120132\n\
first address z1 b=1 a=2 b=3; 0a04 0a027a31 122a UA 2a060a0161120132 2a060a0162120133\n\
first address - b=- -=1; 0a00 122a UA 2a03120131 2a050a01621200\n\
first address z1 aa=1 a=1 ab=1; 0a04 0a027a31 122a UA 2a060a0161120131 2a070a026161120131 2a070a026162120131\n\
answer address x5 b; 122a UA 32027835 3a050803120162\n\
answer address x5; 122a UA 32027835\n\
answer authorization -; 1230 UZ\n\
answer address - b; 122a UA 3a050803120162\n\
answer address x5 -; 122a UA 32027835 3a020803";

fn kind_of(rt: &impl Abort, word: &str) -> Kind {
    match word {
        "address" => Kind::Address,
        "authorization" => Kind::Authorization,
        _ => None.expect(rt, "a kind"),
    }
}

/// Names and versions with `=` between.
fn versions_of(rt: &impl Abort, alloc: Global, words: &str) -> List<NameVersion> {
    let mut versions = List::new(alloc);
    for word in words.split_whitespace() {
        let (name, version) = word.split_once("=").expect(rt, "a version");
        let entry = NameVersion {
            name: text_in(rt, alloc, name),
            version: text_in(rt, alloc, version),
        };
        versions.push(entry).expect(rt, "memory");
    }
    versions
}

fn put_request(
    rt: &impl Abort,
    alloc: Global,
    call: &str,
    kind: Kind,
    text: &Text,
    rest: &str,
    out: &mut Vec<u8>,
) -> Result<(), NoMemory> {
    match (call, rest) {
        ("first", _) => put_first(alloc, text, kind, &versions_of(rt, alloc, rest), out),
        (_, "") => put_answer(alloc, kind, text, None, out),
        _ => put_answer(alloc, kind, text, Some(&text_in(rt, alloc, rest)), out),
    }
}

/// Appends the bytes of a request in words.
fn push_request(rt: &impl Abort, alloc: Global, request: &str, out: &mut Vec<u8>) {
    let (call, rest) = request.split_once(" ").expect(rt, "a kind");
    let (kind, rest) = rest.split_once(" ").expect(rt, "a text");
    let (text, rest) = rest.split_once(" ").unwrap_or((rest, ""));
    let text = text_in(rt, alloc, text);
    put_request(rt, alloc, call, kind_of(rt, kind), &text, rest, out).expect(rt, "memory");
}

/// A request has its bytes, behind a byte that stands there before.
fn assert_row(rt: &impl Abort, alloc: Global, row: &str) {
    let (request, bytes) = row.split_once("; ").unwrap_or((row, ""));
    let mut want = vec![in alloc; 255].expect(rt, "memory");
    push_words(rt, &mut want, bytes);
    let mut out = vec![in alloc; 255].expect(rt, "memory");
    push_request(rt, alloc, request, &mut out);
    assert!(rt; out.as_slice() == want.as_slice(), "{row}: {out:?}");
}

fn assert_rows(rt: &impl Abort, alloc: Global, table: &[u8]) {
    for row in std::str::from_utf8(table).unwrap_or("no text").lines() {
        assert_row(rt, alloc, row);
    }
}

#[test]
fn requests_have_their_bytes(rt: HostRuntime) {
    assert_rows(&rt, rt.alloc(), BY_HAND);
    assert_rows(&rt, rt.alloc(), WRITTEN);
}
