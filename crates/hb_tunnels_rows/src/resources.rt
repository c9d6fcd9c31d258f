//! What is held after responses. A test ends where memory is wanting or a word is none.

use crate::words::{bytes_of, text_of};
use hb_base::Text;
use hb_disco::{Response, read_response};
use hb_held::{Held, OwnDoors};
use std::alloc::Global;
use std::process::Abort;

/// Responses by their names, each with the octets of its message. `U1` is the workload `u1`: `web` of namespace `a`, at 10.0.0.7 on node
/// `n1`, which asks for the policy `a/p`; moved it is on node `n2`, gone it is removed. `U2` is another workload of the node, at 10.0.0.8
/// and of namespace `b`. `ALLOW` is the policy `a/p`, which allows the identity `c` of namespace `a`; `NEVER` is the policy `e`, which
/// allows nothing; `DENY` is `d`, which denies all, and `DENY ELSEWHERE` is `o`, which denies all in namespace `x`.
const RESPONSES: &str = "\
U1: 12580a0131124f0a2a747970652e676f6f676c65617069732e636f6d2f697374696f2e776f726b6c6f61642e4164647265737312210a1f0a037765621201\
611a040a00000728014a026e31820103612f70a2010275311a027531222a747970652e676f6f676c65617069732e636f6d2f697374696f2e776f726b6c6f6164\
2e416464726573732a0178
U1 MOVED: 12580a0131124f0a2a747970652e676f6f676c65617069732e636f6d2f697374696f2e776f726b6c6f61642e4164647265737312210a1f0a037765\
621201611a040a00000728014a026e32820103612f70a2010275311a027531222a747970652e676f6f676c65617069732e636f6d2f697374696f2e776f726b6c\
6f61642e416464726573732a0178
GONE: 222a747970652e676f6f676c65617069732e636f6d2f697374696f2e776f726b6c6f61642e416464726573732a017832027531
U2: 12580a0131124f0a2a747970652e676f6f676c65617069732e636f6d2f697374696f2e776f726b6c6f61642e4164647265737312210a1f0a037765621201\
621a040a00000828014a026e31820103622f70a2010275321a027532222a747970652e676f6f676c65617069732e636f6d2f697374696f2e776f726b6c6f6164\
2e416464726573732a0178
ALLOW: 12670a0131125d0a30747970652e676f6f676c65617069732e636f6d2f697374696f2e73656375726974792e417574686f72697a6174696f6e12290a0\
17012016118022a1f121d121b1a190a17636c75737465722e6c6f63616c2f6e732f612f73612f631a03612f702230747970652e676f6f676c65617069732e636\
f6d2f697374696f2e73656375726974792e417574686f72697a6174696f6e2a0178
NEVER: 123f0a013112370a30747970652e676f6f676c65617069732e636f6d2f697374696f2e73656375726974792e417574686f72697a6174696f6e12030a0\
1651a01652230747970652e676f6f676c65617069732e636f6d2f697374696f2e73656375726974792e417574686f72697a6174696f6e2a0178
DENY: 12430a0131123b0a30747970652e676f6f676c65617069732e636f6d2f697374696f2e73656375726974792e417574686f72697a6174696f6e12070a01\
6420012a001a01642230747970652e676f6f676c65617069732e636f6d2f697374696f2e73656375726974792e417574686f72697a6174696f6e2a0178
DENY ELSEWHERE: 12480a013112400a30747970652e676f6f676c65617069732e636f6d2f697374696f2e73656375726974792e417574686f72697a6174696f\
6e120c0a016f120178180120012a001a016f2230747970652e676f6f676c65617069732e636f6d2f697374696f2e73656375726974792e417574686f72697a61\
74696f6e2a0178";

fn digits_of(name: &str) -> &'static str {
    for line in RESPONSES.lines() {
        let (first, digits) = line.split_once(": ").unwrap_or((line, ""));
        if first == name {
            return digits;
        }
    }
    ""
}

fn response_of(rt: &impl Abort, alloc: Global, name: &str) -> Response {
    let octets = bytes_of(rt, alloc, digits_of(name));
    let response = read_response(alloc, octets.as_slice());
    response.ok().expect(rt, "a response")
}

/// A node `n1` that holds nothing, with these doors.
pub fn held_behind(rt: &impl Abort, alloc: Global, doors: OwnDoors) -> Held {
    let node = text_of(rt, alloc, b"n1");
    Held::new(alloc, Text::empty(alloc), node, doors)
}

fn apply(rt: &impl Abort, alloc: Global, held: &mut Held, name: &str) {
    let response = response_of(rt, alloc, name);
    let outcome = held.apply(alloc, &response).expect(rt, "memory");
    assert!(rt; outcome.refused.len() == 0, "refused: {name}");
}

/// Applies responses with commas between.
pub fn apply_all(rt: &impl Abort, alloc: Global, held: &mut Held, names: &str) {
    for name in names.split(',') {
        let name = name.trim();
        if !name.is_empty() {
            apply(rt, alloc, held, name);
        }
    }
}
