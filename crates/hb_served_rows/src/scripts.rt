//! The scripts of these runs, and their notation: a quote is written as `'`, a newline as `|`.

use std::alloc::Global;
use std::process::Abort;

/// The words of a proxy without a door.
pub const USUAL: &str = "--node n1 --id z1 --discovery 10.0.0.1:15010";

/// A control plane that sends the workload u1, 10.0.0.7 of node n1, and a policy that admits one peer.
pub const BASE: &str = "\
{'open':1}|{'wake':true}|{'bytes':'00000004000000000000000101040000000188','link':1}|{'wake':true}|{'bytes':'00008f000\
000000001000000008a12580a0131124f0a2a747970652e676f6f676c65617069732e636f6d2f697374696f2e776f726b6c6f61642e41646472657\
37312210a1f0a037765621201611a040a00000728014a026e31820103612f70a2010275311a027531222a747970652e676f6f676c65617069732e6\
36f6d2f697374696f2e776f726b6c6f61642e416464726573732a027831','link':1}|{'wake':true}|{'bytes':'0000a400000000000100000\
0009f12670a0131125d0a30747970652e676f6f676c65617069732e636f6d2f697374696f2e73656375726974792e417574686f72697a6174696f6\
e12290a017012016118022a1f121d121b1a190a17636c75737465722e6c6f63616c2f6e732f612f73612f631a03612f702230747970652e676f6f6\
76c65617069732e636f6d2f697374696f2e73656375726974792e417574686f72697a6174696f6e2a027832','link':1}|{'wake':true}|";

/// Behind it two tunnels, of which an update revokes one.
pub const TWO: &str = "\
{'accept':'inbound'}|{'bytes':'0d0a0d0a000d0a515549540a2111002f0a0000090a0000070fa03aa0e000207370696666653a2f2f636c757\
37465722e6c6f63616c2f6e732f612f73612f63505249202a20485454502f322e300d0a0d0a534d0d0a0d0a0000000400000000000000180104000\
000010207434f4e4e454354010d31302e302e302e373a383038300000180104000000030207434f4e4e454354010d31302e302e302e373a3930393\
0','link':2}|{'wake':true}|{'open':3}|{'wake':true}|{'open':4}|{'wake':true}|{'link':2,'room':59}|{'bytes':'0000000000\
0000000000000000000000000000000000000000000000000000000000000000000000000000000000000000000000000000000000000000000000\
000000000000000000000000000000000000000000000000000000000000000000000000','link':3}|{'wake':true}|{'bytes':'00008d0000\
00000001000000008812500a013212460a30747970652e676f6f676c65617069732e636f6d2f697374696f2e73656375726974792e417574686f72\
697a6174696f6e12120a017012016118022a08120612044a0282471a03612f702230747970652e676f6f676c65617069732e636f6d2f697374696f\
2e73656375726974792e417574686f72697a6174696f6e2a027837','link':1}|{'wake':true}|{'link':2,'room':1000}|{'wake':true}|{\
'bytes':'21','link':4}|{'wake':true}|";

/// Behind it a tunnel to its end.
pub const ONE: &str = "\
{'accept':'inbound'}|{'bytes':'0d0a0d0a000d0a515549540a2111002f0a0000090a0000070fa03aa0e000207370696666653a2f2f636c757\
37465722e6c6f63616c2f6e732f612f73612f63505249202a20485454502f322e300d0a0d0a534d0d0a0d0a0000000400000000000000180104000\
000010207434f4e4e454354010d31302e302e302e373a38303830','link':2}|{'wake':true}|{'open':3}|{'wake':true}|{'bytes':'0000\
0500000000000168656c6c6f','link':2}|{'wake':true}|{'bytes':'776f726c64','link':3}|{'wake':true}|{'bytes':'000000000100\
000001','link':2}|{'wake':true}|{'end':3}|{'wake':true}|{'end':2}|{'wake':true}|";

/// The script that a name stands for, or the text itself.
fn script_named(name: &str) -> &str {
    match name {
        "BASE" => BASE,
        "TWO" => TWO,
        "ONE" => ONE,
        text => text,
    }
}

/// A script, of names of scripts, or texts in the notation, with a blank between two.
pub fn script_of(rt: &impl Abort, alloc: Global, text: &str) -> Vec<u8> {
    let mut octets = Vec::new(alloc);
    for name in text.split(' ') {
        for mark in script_named(name).as_bytes() {
            let octet = match mark {
                b'\'' => b'"',
                b'|' => b'\n',
                _ => *mark,
            };
            octets.push(octet).expect(rt, "memory");
        }
    }
    octets
}
