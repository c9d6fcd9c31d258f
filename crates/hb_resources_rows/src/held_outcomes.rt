//! What responses tell and leave.

use crate::held_responses::{apply_all, tell_text, word_of};
use crate::told::{nothing_held, put, same};
use hb_held::Held;
use std::alloc::Global;
use std::process::Abort;

/// Responses with bars between; and of each how many resources were applied and how many names removed, which changed, and
/// which were refused; and at the end what is held, each with its version, and `synced` where both kinds came.
const ROWS: &str = "\
# Nothing; one resource; a name of which the resource is removed and added at once; a bad one between two good ones.
a => 0 0; held
a u1:w,name=web,ns=a,ip=0a000007,hex=2801,node=n1,asks=a/p => 1 0 a.u1; held a.u1@1
a u1:w,ip=0a000007 | a ~u1 u1@2:w,ip=0a000008 => 1 0 a.u1; 1 1 a.u1 a.u1; held a.u1@2
a g1:w b:x,hex=0a021a00 g2:w => 2 0 a.g1 a.g2 (b: bad ip in field 3); held a.g1@1 a.g2@1
# The reasons, in this order of looking: no name, another type, the record.
a -:w => 0 0 (-: no name); held
a !-:x,hex=0b => 0 0 (-: no name); held
a !u:w => 0 0 (u: wrong type); held
z !p:p => 0 0 (p: wrong type); held
z !p:x,hex=0b => 0 0 (p: wrong type); held
a u:x,hex=0a => 0 0 (u: Truncated at byte 1); held
a u:x,hex=0b => 0 0 (u: BadType at byte 0); held
a u:x => 0 0 (u: no kind in field 0); held
a u:x,hex=0a030a01ff => 0 0 (u: utf8 in field 1); held
a u:w,ip=0a0000 => 0 0 (u: bad ip in field 3); held
a u:s,at=net/0a => 0 0 (u: bad ip in field 2); held
z p:x,hex=1802 => 1 0 z.p; held z.p@1
z p:x,hex=1803 => 0 0 (p: bad enum 3 in field 3); held
z p:x,hex=2002 => 0 0 (p: bad enum 2 in field 4); held
z p:x,hex=2a08120612042a021021 => 0 0 (p: bad cidr in field 5); held
z p:x,hex=2a06120412021a00 => 0 0 (p: no kind in field 3); held
z p:p,rules=4096 => 1 0 z.p; held z.p@1
z p:p,rules=4097 => 0 0 (p: too many in field 5: 4097); held
# Equal names in one response: the later replaces, and a refused one leaves the earlier.
a u@1:w u@2:s => 2 0 a.u a.u; held a.u@2
a u@1:w u@2:x u@3:w => 2 0 a.u a.u (u: no kind in field 0); held a.u@3
a u@1:w u@2:x => 1 0 a.u (u: no kind in field 0); held a.u@1
a u@1:w | a u@2:x => 1 0 a.u; 0 0 (u: no kind in field 0); held a.u@1
a u@1:w | a !u@2:w -:w v:w => 1 0 a.u; 1 0 a.v (u: wrong type) (-: no name); held a.u@1 a.v@1
# A name that is removed twice; one that isn't held; one whose resource comes back, and one whose resource is refused.
a u:w v:w | a ~u ~u ~x => 2 0 a.u a.v; 0 1 a.u; held a.v@1
a ~u u:w => 1 0 a.u; held a.u@1
a u:w v:w | a ~v ~u u@2:w => 2 0 a.u a.v; 1 2 a.v a.u a.u; held a.u@2
a u:w | a ~u u@2:x => 1 0 a.u; 0 1 a.u (u: no kind in field 0); held
a -:w | a ~- => 0 0 (-: no name); 0 0; held
# The kinds apart.
a n:w | z n@2:p => 1 0 a.n; 1 0 z.n; held a.n@1 z.n@2 synced
a n:w | z n@2:p | z ~n => 1 0 a.n; 1 0 z.n; 0 1 z.n; held a.n@1 synced
a n:w | z n@2:p | a ~n => 1 0 a.n; 1 0 z.n; 0 1 a.n; held z.n@2 synced
z n:p | a ~n => 1 0 z.n; 0 0; held z.n@1 synced
# Both kinds came, also where all of a response's resources are refused.
z => 0 0; held
a u:x | z !p:p => 0 0 (u: no kind in field 0); 0 0 (p: wrong type); held synced
# By bytes, whatever the order in which they came.
a b:w a:w aa:w B:s => 4 0 a.b a.a a.aa a.B; held a.B@1 a.a@1 a.aa@1 a.b@1
z b:p a:p | a z:w => 2 0 z.b z.a; 1 0 a.z; held a.z@1 z.a@1 z.b@1 synced";

fn tell_held(rt: &impl Abort, told: &mut String, held: &Held) {
    put(rt, told, "held");
    let mut rows = held.rows();
    while let Some(row) = rows.next() {
        put(rt, told, " ");
        put(rt, told, word_of(row.kind));
        put(rt, told, ".");
        tell_text(rt, told, row.name);
        put(rt, told, "@");
        tell_text(rt, told, row.version);
    }
    if held.synced() {
        put(rt, told, " synced");
    }
}

fn assert_row(rt: &impl Abort, alloc: Global, row: &str) {
    let (responses, want) = row.split_once(" => ").unwrap_or((row, ""));
    let mut held = nothing_held(rt, alloc);
    let mut told = String::new(alloc);
    apply_all(rt, alloc, &mut held, responses, &mut told);
    tell_held(rt, &mut told, &held);
    same(rt, row, told.as_str(), want);
}

#[test]
fn responses_tell_what_they_did(rt: HostRuntime) {
    for row in ROWS.lines() {
        if !row.starts_with('#') {
            assert_row(&rt, rt.alloc(), row);
        }
    }
}
