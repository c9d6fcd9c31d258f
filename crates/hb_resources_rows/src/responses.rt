//! What responses are read as.

use crate::disco_words::{push_words, put_text, text_named};
use crate::told::{put, same};
use hb_base::{Or, Text};
use hb_disco::{Kind, Resource, Response, ResponseFault, read_response};
use std::alloc::Global;
use std::process::Abort;

/// Responses, and what each is read as: its kind and nonce, of each resource the name, the version, the type URL and the value,
/// and the names that are removed; or the fault.
const ROWS: &str = "\
# One resource; a resource between two others; one that is removed and added.
1258 0a0131 124f 0a2a UA 1221 0a1f 0a03776562 120161 1a040a000007 2801 4a026e31 820103612f70 a201027531 1a027531 222a UA 2a027831; \
    address x1 + u1 1 UA 0a1f0a037765621201611a040a00000728014a026e31820103612f70a201027531
1239 0a0131 1230 0a2a UA 12020a00 1a026731 123a 0a0131 1232 0a2a UA 12040a021a00 1a0162 1239 0a0131 1230 0a2a UA 12020a00 1a026732 \
    222a UA 2a027835; address x5 + g1 1 UA 0a00 + b 1 UA 0a021a00 + g2 1 UA 0a00
1258 0a0131 124f 0a2a UA 1221 0a1f 0a03776562 120161 1a040a000007 2801 4a026e31 820103612f70 a201027531 1a027531 222a UA 2a027836 \
    32027531; address x6 + u1 1 UA 0a1f0a037765621201611a040a00000728014a026e31820103612f70a201027531 removed u1
1243 0a0131 123b 0a30 UZ 1207 0a016420012a00 1a0164 2230 UZ 2a027833; authorization x3 + d 1 UZ 0a016420012a00
# Nothing but the type; names that are removed; a resource without any part; one of another type.
222a UA; address -
320162 2230 UZ 320161 320162; authorization - removed b removed a removed b
1200 222a UA; address - + - - - -
123a 0a0132 1232 0a30 UZ 1a016e 222a UA; address - + n 2 UZ -
120a 0a0132 1202 0a00 1a016e 222a UA; address - + n 2 - -
# The last occurrence counts, of a type and a value each by itself; other fields and other wire types are passed over.
2230 UZ 2a0161 222a UA 2a0162; address b
121e 0a0131 12060a0174120161 0a0132 12030a0175 1203120162 1a016d 1a016e 222a UA; address - + n 2 u 62
120f 12030a0174 0801 1001 1a016e 2201ff 222a UA; address - + n - t -
0a0131 3a01ff 0801 1005 2501020304 222a UA; address -
# The type is of neither kind.
; unknown type
220161; unknown type
222b UA 00; unknown type
222a UA 2200; unknown type
# No UTF-8.
0a01ff 222a UA; utf8 1
222a UA 0a02c3c3; utf8 1
12030a01ff 222a UA; utf8 1
120512030a01ff 222a UA; utf8 1
12031a01ff 222a UA; utf8 3
222a UA 2201ff; utf8 4
222a UA 2a01ff; utf8 5
222a UA 3201ff; utf8 6
222a UA 2a01ff 2a0161; utf8 5
222a UA 12030a0131 12031a01ff; utf8 3
# No fields: the place is that in the whole.
22; Truncated at byte 1
222a UA 2a0278; Truncated at byte 47
222a UA 12030a0261; Truncated at byte 49
222a UA 120512030a0261; Truncated at byte 51
120512030a0261 222a UA; Truncated at byte 7
12010b 222a UA; BadType at byte 2
1203120100 222a UA; BadNumber at byte 4
120b 0affffffffffffffffffff 222a UA; LongVarint at byte 12
# The first fault in the order of the bytes; the type is looked at last.
12010b 0a01ff; BadType at byte 2
0a01ff 12010b; utf8 1
12030a01ff 22; utf8 1
220161 0a01ff; utf8 1
220161 08; Truncated at byte 4
220161 12030a01ff; utf8 1";

/// A text, or a name for it; `-` where it is empty.
fn put_part(rt: &impl Abort, told: &mut String, text: &Text) {
    put(rt, told, " ");
    for name in ["-", "UA", "UZ"] {
        if text.as_slice() == text_named(name).as_bytes() {
            return put(rt, told, name);
        }
    }
    put_text(rt, told, text);
}

fn put_value(rt: &impl Abort, told: &mut String, value: &[u8]) {
    put(rt, told, if value.is_empty() { " -" } else { " " });
    for byte in value {
        write!(told, "{byte:02x}").expect(rt, "memory");
    }
}

fn tell_resource(rt: &impl Abort, told: &mut String, resource: &Resource) {
    put(rt, told, " +");
    put_part(rt, told, &resource.name);
    put_part(rt, told, &resource.version);
    put_part(rt, told, &resource.type_url);
    put_value(rt, told, resource.value.as_slice());
}

fn tell_response(rt: &impl Abort, told: &mut String, response: &Response) {
    match response.kind {
        Kind::Address => put(rt, told, "address"),
        Kind::Authorization => put(rt, told, "authorization"),
    }
    put_part(rt, told, &response.nonce);
    for resource in response.resources.as_slice() {
        tell_resource(rt, told, resource);
    }
    for name in response.removed.as_slice() {
        put(rt, told, " removed");
        put_part(rt, told, name);
    }
}

fn tell_fault(rt: &impl Abort, told: &mut String, fault: ResponseFault) {
    match fault {
        ResponseFault::Wire(fault) => write!(told, "{fault}").expect(rt, "memory"),
        ResponseFault::Utf8 { field } => write!(told, "utf8 {field}").expect(rt, "memory"),
        ResponseFault::UnknownType => put(rt, told, "unknown type"),
    }
}

/// What the bytes are read as.
fn tell(rt: &impl Abort, alloc: Global, told: &mut String, bytes: &[u8]) {
    match read_response(alloc, bytes) {
        Ok(response) => tell_response(rt, told, &response),
        Err(Or::Fault(fault)) => tell_fault(rt, told, fault),
        Err(Or::NoMemory) => put(rt, told, "no memory"),
    }
}

fn assert_row(rt: &impl Abort, alloc: Global, row: &str) {
    let (words, want) = row.split_once("; ").unwrap_or((row, ""));
    let mut bytes = Vec::new(alloc);
    push_words(rt, &mut bytes, words);
    let mut told = String::new(alloc);
    tell(rt, alloc, &mut told, bytes.as_slice());
    same(rt, row, told.as_str(), want);
}

#[test]
fn responses_are_read(rt: HostRuntime) {
    for row in ROWS.lines() {
        if !row.starts_with('#') {
            assert_row(&rt, rt.alloc(), row);
        }
    }
}
