//! Reads and writes that fail.

use crate::runs::{Failing, NOTHING_FAILS, told_of};
use std::alloc::Global;
use std::process::Abort;
use std::str::Split;

/// The response `x1` with the workload `u1` of version 1: `web` of namespace `a` with the address 10.0.0.7,
/// HBONE, on node `n1`; it names the policy `a/p`.
const WORKLOAD: &str = "000000008a 1258 0a0131 124f 0a2a\
    747970652e676f6f676c65617069732e636f6d2f697374696f2e776f726b6c6f61642e41646472657373\
    1221 0a1f 0a03776562 120161 1a040a000007 2801 4a026e31 820103612f70 a201027531 1a027531 222a\
    747970652e676f6f676c65617069732e636f6d2f697374696f2e776f726b6c6f61642e41646472657373 2a027831";

/// The response `x2` with the policy `a/p`: an ALLOW for workloads that name it, which fires for the principal
/// `cluster.local/ns/a/sa/c`.
const ALLOW_ONE: &str = "000000009f 1267 0a0131 125d 0a30\
    747970652e676f6f676c65617069732e636f6d2f697374696f2e73656375726974792e417574686f72697a6174696f6e\
    1229 0a0170 120161 1802 2a1f 121d 121b 1a19 0a17 636c75737465722e6c6f63616c2f6e732f612f73612f63\
    1a03612f70 2230\
    747970652e676f6f676c65617069732e636f6d2f697374696f2e73656375726974792e417574686f72697a6174696f6e\
    2a027832";

/// The response `x3` with the policy `d`: a DENY for all of the mesh with a rule without clauses, which fires
/// for every connection.
const DENY_ALL: &str = "000000007b 1243 0a0131 123b 0a30\
    747970652e676f6f676c65617069732e636f6d2f697374696f2e73656375726974792e417574686f72697a6174696f6e\
    1207 0a016420012a00 1a0164 2230\
    747970652e676f6f676c65617069732e636f6d2f697374696f2e73656375726974792e417574686f72697a6174696f6e\
    2a027833";

/// The response `x6`, which removes the name `u1` and adds it.
const REMOVED_AND_ADDED: &str = "000000008e 1258 0a0131 124f 0a2a\
    747970652e676f6f676c65617069732e636f6d2f697374696f2e776f726b6c6f61642e41646472657373\
    1221 0a1f 0a03776562 120161 1a040a000007 2801 4a026e31 820103612f70 a201027531 1a027531 222a\
    747970652e676f6f676c65617069732e636f6d2f697374696f2e776f726b6c6f61642e41646472657373\
    2a027836 32027531";

/// Words, the input, the take of the input that fails, the put of the output that fails, the output's room, the put of
/// the error text that fails, its room, and the status, the output and the error text. 0 stands for no call.
const FAULTS: &str =
    r#"# The first take fails, or the second, behind all of the input; whatever the input is.
CHECK; WORKLOAD; 1; 0; 64; 0; 64; 6 "" "hbone: read fault\n"
CHECK; WORKLOAD; 2; 0; 64; 0; 64; 6 "" "hbone: read fault\n"
CHECK; ; 1; 0; 64; 0; 64; 6 "" "hbone: read fault\n"
CHECK; WORKLOAD ALLOW_ONE DENY_ALL; 2; 0; 64; 0; 64; 6 "" "hbone: read fault\n"
CHECK; 00; 1; 0; 64; 0; 64; 6 "" "hbone: read fault\n"
CHECK; 00; 2; 0; 64; 0; 64; 6 "" "hbone: read fault\n"
CHECK; WORKLOAD REMOVED_AND_ADDED; 2; 0; 64; 0; 64; 6 "" "hbone: read fault\n"
# Nothing fails.
OPEN; WORKLOAD; 0; 0; 64; 0; 64; 0 "allow\n" ""
# A take fails that never comes.
CHECK; WORKLOAD; 1000; 0; 64; 0; 64; 0 "allow\n" ""
# The first put of the output fails.
CHECK; WORKLOAD; 0; 1; 64; 0; 64; 7 "" "hbone: write fault\n"
CHECK; WORKLOAD DENY_ALL; 0; 1; 64; 0; 64; 7 "" "hbone: write fault\n"
CHECK; ; 0; 1; 64; 0; 64; 7 "" "hbone: write fault\n"
# The output has room for a part of the answer.
CHECK; WORKLOAD; 0; 0; 0; 0; 64; 7 "" "hbone: write fault\n"
CHECK; WORKLOAD; 0; 0; 1; 0; 64; 7 "a" "hbone: write fault\n"
CHECK; WORKLOAD; 0; 0; 5; 0; 64; 7 "allow" "hbone: write fault\n"
CHECK; WORKLOAD; 0; 0; 6; 0; 64; 0 "allow\n" ""
CHECK; WORKLOAD DENY_ALL; 0; 0; 4; 0; 64; 7 "deny" "hbone: write fault\n"
CHECK; WORKLOAD DENY_ALL; 0; 0; 5; 0; 64; 0 "deny\n" ""
CHECK; ; 0; 0; 3; 0; 64; 7 "unk" "hbone: write fault\n"
CHECK; ; 0; 0; 7; 0; 64; 7 "unknown" "hbone: write fault\n"
CHECK; ; 0; 0; 8; 0; 64; 0 "unknown\n" ""
# A put fails behind a part, or never comes.
CHECK; WORKLOAD; 0; 2; 3; 0; 64; 7 "all" "hbone: write fault\n"
CHECK; WORKLOAD; 0; 2; 64; 0; 64; 0 "allow\n" ""
# Nothing is put of an input that is refused or can't be read.
CHECK; 00; 0; 1; 0; 0; 64; 3 "" "hbone: message 1: cut short\n"
CHECK; WORKLOAD 00; 0; 1; 0; 0; 64; 3 "" "hbone: message 2: cut short\n"
CHECK; WORKLOAD; 2; 1; 0; 0; 64; 6 "" "hbone: read fault\n"
# The error text fails, at once or behind a part: the status is the same.
CHECK; WORKLOAD; 0; 0; 64; 1; 0; 0 "allow\n" ""
CHECK; 00; 0; 0; 64; 1; 64; 3 "" ""
CHECK; 00; 0; 0; 64; 0; 0; 3 "" ""
CHECK; 00; 0; 0; 64; 0; 10; 3 "" "hbone: mes"
CHECK; 00; 0; 0; 64; 2; 10; 3 "" "hbone: mes"
CHECK; 00; 0; 0; 64; 2; 64; 3 "" "hbone: message 1: cut short\n"
CHECK; WORKLOAD; 1; 0; 64; 1; 64; 6 "" ""
CHECK; WORKLOAD; 1; 0; 64; 0; 17; 6 "" "hbone: read fault"
CHECK; WORKLOAD; 1; 0; 64; 0; 18; 6 "" "hbone: read fault\n"
CHECK; WORKLOAD; 0; 1; 64; 1; 64; 7 "" ""
CHECK; WORKLOAD; 0; 0; 2; 0; 5; 7 "al" "hbone"
check; WORKLOAD; 0; 0; 64; 1; 64; 2 "" ""
check; WORKLOAD; 0; 0; 64; 0; 13; 2 "" "hbone: words:"
# Words that aren't accepted, and reads and writes that fail.
chec; WORKLOAD; 1; 0; 64; 0; 1024; 2 "" "hbone: words: unknown command 'chec' (see hbone --help)\n"
chec; 00; 1; 1; 0; 0; 1024; 2 "" "hbone: words: unknown command 'chec' (see hbone --help)\n"
check; WORKLOAD; 1; 1; 0; 1; 0; 2 "" ""
# What is held is shown, to the last byte.
show; WORKLOAD; 0; 0; 230; 0; 64; 0 "CAME\nHELD\n" ""
show; WORKLOAD; 0; 0; 229; 0; 64; 7 "CAME\nHELD" "hbone: write fault\n"
# A put fails behind the first line, in it, or before it.
show; WORKLOAD; 0; 0; 69; 0; 64; 7 "CAME\n" "hbone: write fault\n"
show; WORKLOAD; 0; 0; 70; 0; 64; 7 "CAME\n{" "hbone: write fault\n"
show; WORKLOAD; 0; 0; 68; 0; 64; 7 "CAME" "hbone: write fault\n"
show; WORKLOAD; 0; 2; 10; 0; 64; 7 "{\"applied\"" "hbone: write fault\n"
show; WORKLOAD; 0; 0; 0; 0; 64; 7 "" "hbone: write fault\n"
show; WORKLOAD; 0; 1; 512; 0; 64; 7 "" "hbone: write fault\n"
show; WORKLOAD; 0; 1000; 230; 0; 64; 0 "CAME\nHELD\n" ""
# Nothing is shown of no input, and so nothing is put.
show; ; 0; 1; 0; 1; 0; 0 "" ""
# Nothing is shown before all of the input is read, and nothing of one that is refused in the end.
show; WORKLOAD; 1; 0; 512; 0; 64; 6 "" "hbone: read fault\n"
show; WORKLOAD; 2; 0; 512; 0; 64; 6 "" "hbone: read fault\n"
show; ; 1; 0; 512; 0; 64; 6 "" "hbone: read fault\n"
show; WORKLOAD; 2; 1; 0; 0; 64; 6 "" "hbone: read fault\n"
show; WORKLOAD 00; 2; 0; 512; 0; 64; 6 "" "hbone: read fault\n"
show; WORKLOAD 00; 0; 0; 512; 0; 64; 3 "" "hbone: message 2: cut short\n"
show; WORKLOAD 00; 0; 1; 0; 0; 64; 3 "" "hbone: message 2: cut short\n"
show; WORKLOAD ALLOW_ONE REMOVED_AND_ADDED 01; 0; 0; 512; 0; 64; 3 "" "hbone: message 4: compressed\n"
show; WORKLOAD ALLOW_ONE 0000000000; 0; 0; 512; 0; 64; 3 "" "hbone: message 3: not a response\n"
# The error text of `show` fails, at once or behind a part.
show; 00; 0; 0; 512; 1; 64; 3 "" ""
show; 00; 0; 0; 512; 0; 10; 3 "" "hbone: mes"
show; WORKLOAD; 0; 1; 512; 1; 64; 7 "" ""
show; WORKLOAD; 1; 1; 0; 1; 0; 6 "" ""
show x; WORKLOAD; 1; 1; 0; 0; 1024; 2 "" "hbone: words: unexpected word 'x' (see hbone show --help)\n"
# A page reads nothing, and fails where it can't be put.
--version; WORKLOAD; 1; 0; 64; 1; 0; 0 "hbone 0.1.0\n" ""
--version; WORKLOAD; 1; 1; 64; 0; 64; 7 "" "hbone: write fault\n"
--version; WORKLOAD; 1; 0; 11; 0; 64; 7 "hbone 0.1.0" "hbone: write fault\n"
show --help; WORKLOAD; 1; 2; 5; 1; 0; 7 "Tells" ""
# A part of a made script is printed, or of the total line of its run.
make 1; ; 0; 0; 0; 0; 64; 7 "" "hbone: write fault\n"
make 1; ; 0; 0; 10; 0; 64; 7 "{\"open\":1}" "hbone: write fault\n"
make 1 --run; ; 0; 0; 8; 0; 64; 7 "total: 3" "hbone: write fault\n"
# All of them fail.
CHECK; WORKLOAD; 1; 1; 0; 1; 0; 6 "" ""
CHECK; WORKLOAD; 0; 1; 0; 1; 0; 7 "" """#;

/// What `show` tells of WORKLOAD.
const CAME: &str =
    r#"{\"applied\":1,\"kind\":\"address\",\"nonce\":\"x1\",\"refused\":[],\"removed\":0}"#;

/// The line of the workload that WORKLOAD leaves.
const HELD: &str =
    r#"{\"addresses\":[\"10.0.0.7\"],\"kind\":\"workload\",\"name\":\"u1\",\"node\":\"n1\",\"record\":\"RECORD\",\"version\":\"1\"}"#;

/// Its record.
const RECORD: &str = "0a1f0a037765621201611a040a00000728014a026e31820103612f70a201027531";

/// The text that the name of a part of an end stands for.
const PARTS: [(&str, &str); 3] = [("CAME", CAME), ("HELD", HELD), ("RECORD", RECORD)];

/// A text with a part in the place of each name.
fn with_part(rt: &impl Abort, alloc: Global, text: &str, name: &str, part: &str) -> String {
    let mut spelled = String::new(alloc);
    let mut is_behind = false;
    for piece in text.split(name) {
        if is_behind {
            spelled.push_str(part).expect(rt, "memory");
        }
        spelled.push_str(piece).expect(rt, "memory");
        is_behind = true;
    }
    spelled
}

/// An end, in which parts stand by their names.
fn spelled(rt: &impl Abort, alloc: Global, text: &str) -> String {
    let mut spelled = String::from_str(alloc, text).expect(rt, "memory");
    for (name, part) in PARTS {
        spelled = with_part(rt, alloc, spelled.as_str(), name, part);
    }
    spelled
}

/// The octets of a name of a message, or of two digits; none of another text.
fn push_octets(rt: &impl Abort, octets: &mut Vec<u8>, name: &str) {
    let digits = match name {
        "WORKLOAD" => WORKLOAD,
        "ALLOW_ONE" => ALLOW_ONE,
        "DENY_ALL" => DENY_ALL,
        "REMOVED_AND_ADDED" => REMOVED_AND_ADDED,
        digits => digits,
    };
    let mut high: Option<u8> = None;
    for digit in digits.as_bytes() {
        let Some(low) = nibble_of(*digit) else {
            continue;
        };
        match high {
            None => high = Some(low),
            Some(first) => {
                octets
                    .push((first % 16) * 16 + low % 16)
                    .expect(rt, "memory");
                high = None;
            }
        }
    }
}

/// The value of a hexadecimal digit.
fn nibble_of(digit: u8) -> Option<u8> {
    match digit {
        b'0'..=b'9' => Some(digit - b'0'),
        b'a'..=b'f' => Some(digit - b'a' + 10),
        _ => None,
    }
}

/// The input of a text: digits, and names of messages, with blanks between.
fn input_of(rt: &impl Abort, alloc: Global, text: &str) -> Vec<u8> {
    let mut octets = Vec::new(alloc);
    for name in text.split(' ') {
        push_octets(rt, &mut octets, name);
    }
    octets
}

/// The next field of a row.
fn field<'a>(rt: &impl Abort, fields: &mut Split<'a, char>) -> &'a str {
    fields.next().expect(rt, "a field").trim()
}

/// The number that the next field is.
fn number(rt: &impl Abort, fields: &mut Split<'_, char>) -> usize {
    field(rt, fields).parse::<usize>().expect(rt, "a number")
}

fn assert_row(rt: &impl Abort, alloc: Global, row: &str) {
    let mut fields = row.split(';');
    let words = field(rt, &mut fields);
    let input = input_of(rt, alloc, field(rt, &mut fields));
    let failing = Failing {
        take: number(rt, &mut fields) as u64,
        put: number(rt, &mut fields) as u64,
        room: number(rt, &mut fields),
        err_put: number(rt, &mut fields) as u64,
        err_room: number(rt, &mut fields),
    };
    let want = spelled(rt, alloc, field(rt, &mut fields));
    let ended = told_of(rt, alloc, words, input.as_slice(), failing);
    assert!(rt; ended.as_str() == want.as_str(), "{row}: {ended}");
}

#[test]
fn runs_whose_reads_and_writes_fail_end_as_their_rows_want(rt: HostRuntime) {
    for row in FAULTS.lines() {
        if !row.starts_with('#') {
            assert_row(&rt, rt.alloc(), row);
        }
    }
}

/// A read of many messages fails behind the first part.
#[test]
fn a_read_fails_in_mid_stream(rt: HostRuntime) {
    let alloc = rt.alloc();
    let message = input_of(&rt, alloc, "WORKLOAD");
    let mut input = Vec::new(alloc);
    for _ in 0..1000 {
        input.extend_from_slice(&message).expect(&rt, "memory");
    }
    let failing = Failing {
        take: 2,
        ..NOTHING_FAILS
    };
    let ended = told_of(&rt, alloc, "OPEN", input.as_slice(), failing);
    assert!(&rt;
        ended.as_str() == r#"6 "" "hbone: read fault\n""#,
        "{ended}"
    );
}
