//! Header blocks that are read, and that are refused.

use crate::hex::octets_of;
use crate::hpack_vectors;
use crate::told::{assert_told, cut};
use hb_base::Or;
use hb_hpack::{Decoder, Header, HeaderList, HpackFault};
use std::alloc::Global;
use std::process::Abort;

/// The examples of RFC 7541 Appendix C.1 to C.6, and refused blocks whose places were counted by hand. The lines are
/// those of hpack_vectors.rt; one that begins with `#` says what the next ones are, and `-` is a block of no octets.
const EXAMPLES: &[u8] = b"\
# Single representations, C.2.
n
r 400a637573746f6d2d6b65790d637573746f6d2d686561646572 55 55 |custom-key|custom-header
n
r 040c2f73616d706c652f70617468 49 0 |:path|/sample/path
r 100870617373776f726406736563726574 46 0 |password|secret
r 82 42 0 |:method|GET
# Requests, C.3.
n
r 828684410f7777772e6578616d706c652e636f6d 180 57 |:method|GET|:scheme|http|:path|/|:authority|www.example.com
r 828684be58086e6f2d6361636865 233 110 \
|:method|GET|:scheme|http|:path|/|:authority|www.example.com|cache-control|no-cache
r 828785bf400a637573746f6d2d6b65790c637573746f6d2d76616c7565 245 164 \
|:method|GET|:scheme|https|:path|/index.html|:authority|www.example.com|custom-key|custom-value
# Requests in Huffman code, C.4.
n
r 828684418cf1e3c2e5f23a6ba0ab90f4ff 180 57 |:method|GET|:scheme|http|:path|/|:authority|www.example.com
r 828684be5886a8eb10649cbf 233 110 \
|:method|GET|:scheme|http|:path|/|:authority|www.example.com|cache-control|no-cache
r 828785bf408825a849e95ba97d7f8925a849e95bb8e8b4bf 245 164 \
|:method|GET|:scheme|https|:path|/index.html|:authority|www.example.com|custom-key|custom-value
# Responses with a table of 256 octets, C.5.
n
r 3fe1014803333032580770726976617465611d4d6f6e2c203231204f637420323031332032303a31333a323120474d54\
6e1768747470733a2f2f7777772e6578616d706c652e636f6d 222 222 \
|:status|302|cache-control|private|date|Mon,%2021%20Oct%202013%2020:13:21%20GMT|location|https://www.example.com
r 4803333037c1c0bf 222 222 \
|:status|307|cache-control|private|date|Mon,%2021%20Oct%202013%2020:13:21%20GMT|location|https://www.example.com
r 88c1611d4d6f6e2c203231204f637420323031332032303a31333a323220474d54c05a04677a69707738666f6f3d\
4153444a4b48514b425a584f5157454f50495541585157454f49553b206d61782d6167653d333630303b2076657273696f6e3d31 372 215 \
|:status|200|cache-control|private|date|Mon,%2021%20Oct%202013%2020:13:22%20GMT|location|https://www.example.com\
|content-encoding|gzip|set-cookie|foo=ASDJKHQKBZXOQWEOPIUAXQWEOIU;%20max-age=3600;%20version=1
# Responses in Huffman code, C.6.
n
r 3fe101488264025885aec3771a4b6196d07abe941054d444a8200595040b8166e082a62d1bff6e919d29ad171863c78f0b97c8e9ae82ae43d3 \
222 222 |:status|302|cache-control|private|date|Mon,%2021%20Oct%202013%2020:13:21%20GMT|location|https://www.example.com
r 4883640effc1c0bf 222 222 \
|:status|307|cache-control|private|date|Mon,%2021%20Oct%202013%2020:13:21%20GMT|location|https://www.example.com
r 88c16196d07abe941054d444a8200595040b8166e084a62d1bffc05a839bd9ab77ad94e7821dd7f2e6c7b335dfdfcd5b3960d5af27087f3672c1ab\
270fb5291f9587316065c003ed4ee5b1063d5007 372 215 \
|:status|200|cache-control|private|date|Mon,%2021%20Oct%202013%2020:13:22%20GMT|location|https://www.example.com\
|content-encoding|gzip|set-cookie|foo=ASDJKHQKBZXOQWEOPIUAXQWEOIU;%20max-age=3600;%20version=1
# Updates may stand alone: the integers 10 and 1337 of C.1.1 and C.1.2, and 4,096.
n
r - 0 0 -
r 2a 0 0 -
r 3f9a0a 0 0 -
r 3fe11f 0 0 -
r 203fe11f 0 0 -
# No entry has the index.
n
f 80 0 1
n
f be 0 1
n
f ff80ffffff0f 5 1
n
f ff80ffff0f 4 1
# Integers that are too long.
n
f ffffffffffff 5 2
n
f ff808080808000 6 2
n
f ff81ffffff0f 5 2
# Blocks that are cut short.
n
f 41 1 3
n
f ff 1 3
n
f ff8080808080 6 3
n
f ff80ffff 4 3
# A whole end of a string.
n
f 0084ffffffff00 1 4
# A size above the largest, and sizes behind a header.
n
f 3fe21f 2 5
n
f 8220 1 6
n
f 823fe11f 1 6";

/// How many blocks were read, and how many refused.
#[derive(Clone, Copy)]
struct Counts {
    read: u64,
    refused: u64,
}

impl Counts {
    /// Counts a line of the tables.
    fn add(&mut self, line: &str) {
        if line.starts_with('r') {
            self.read = self.read.saturating_add(1);
        } else {
            self.refused = self.refused.saturating_add(1);
        }
    }
}

/// Whether the tables show the octet as it is.
fn is_plain(octet: u8) -> bool {
    octet.is_ascii_graphic() && !b"\"\\%|".contains(&octet)
}

/// Appends a text, with `%` and two digits for each octet that isn't printed or has a meaning in the tables.
fn show(rt: &impl Abort, shown: &mut String, text: &[u8]) {
    for octet in text {
        if is_plain(*octet) {
            shown.push(char::from(*octet)).expect(rt, "memory");
        } else {
            write!(shown, "%{octet:02x}").expect(rt, "memory");
        }
    }
}

/// The headers as the tables have them.
pub fn shown_of(rt: &impl Abort, alloc: Global, headers: &[Header]) -> String {
    let mut shown = String::new(alloc);
    for header in headers {
        shown.push_str("|").expect(rt, "memory");
        show(rt, &mut shown, header.name.as_slice());
        shown.push_str("|").expect(rt, "memory");
        show(rt, &mut shown, header.value.as_slice());
    }
    if shown.is_empty() {
        shown.push_str("-").expect(rt, "memory");
    }
    shown
}

fn told_of_list(
    rt: &impl Abort,
    alloc: Global,
    words: &str,
    list: &HeaderList,
    table: usize,
) -> String {
    let shown = shown_of(rt, alloc, list.kept.as_slice());
    format!(in alloc; "r {words} {} {table} {shown}", list.size).expect(rt, "memory")
}

fn told_of_fault(rt: &impl Abort, alloc: Global, words: &str, fault: HpackFault) -> String {
    format!(in alloc; "f {words} {} {}", fault.at, fault.why as u8 + 1).expect(rt, "memory")
}

/// What the decoder tells of a block, as the tables have it, where `words` stand for the block.
pub fn told_of(
    rt: &impl Abort,
    alloc: Global,
    decoder: &mut Decoder,
    words: &str,
    block: &[u8],
) -> String {
    match decoder.block(block) {
        Ok(list) => told_of_list(rt, alloc, words, &list, decoder.table_size()),
        Err(Or::Fault(fault)) => told_of_fault(rt, alloc, words, fault),
        Err(Or::NoMemory) => panic!(rt; "memory"),
    }
}

/// The words of the block of a line.
pub fn block_of(line: &str) -> &str {
    cut(cut(line, " ").1, " ").0
}

/// Reads the block of a line and compares what is told.
pub fn assert_line(rt: &impl Abort, alloc: Global, decoder: &mut Decoder, line: &str) {
    let words = block_of(line);
    let block = octets_of(rt, alloc, words.trim_start_matches('-'));
    let told = told_of(rt, alloc, decoder, words, block.as_slice());
    assert_told(rt, line, told.as_str(), line);
}

fn renew(alloc: Global, decoder: &mut Decoder) {
    *decoder = Decoder::new(alloc);
}

/// Follows the lines of a table, as the head of hpack_vectors.rt says.
fn follow(
    rt: &impl Abort,
    alloc: Global,
    decoder: &mut Decoder,
    table: &[u8],
    counts: &mut Counts,
) {
    for line in std::str::from_utf8(table).unwrap_or("no text").lines() {
        if line == "n" {
            renew(alloc, decoder);
        } else if !line.starts_with('#') {
            assert_line(rt, alloc, decoder, line);
            counts.add(line);
        }
    }
}

fn assert_follows(rt: &impl Abort, alloc: Global, tables: &[&[u8]], want: Counts) {
    let mut counts = Counts {
        read: 0,
        refused: 0,
    };
    let mut decoder = Decoder::new(alloc);
    for table in tables {
        follow(rt, alloc, &mut decoder, table, &mut counts);
    }
    assert!(rt; counts.read == want.read && counts.refused == want.refused);
}

/// The parts of the table that nghttp2 made.
fn tables() -> [&'static [u8]; 12] {
    [
        hpack_vectors::PART_1,
        hpack_vectors::PART_2,
        hpack_vectors::PART_3,
        hpack_vectors::PART_4,
        hpack_vectors::PART_5,
        hpack_vectors::PART_6,
        hpack_vectors::PART_7,
        hpack_vectors::PART_8,
        hpack_vectors::PART_9,
        hpack_vectors::PART_10,
        hpack_vectors::PART_11,
        hpack_vectors::PART_12,
    ]
}

#[test]
fn blocks_are_read_and_refused_as_elsewhere(rt: HostRuntime) {
    let examples = Counts {
        read: 21,
        refused: 15,
    };
    assert_follows(&rt, rt.alloc(), &[EXAMPLES], examples);
    let vectors = Counts {
        read: 271,
        refused: 210,
    };
    assert_follows(&rt, rt.alloc(), &tables(), vectors);
}

/// Blocks and lists at their limits: the words of a block, its list's size, how many headers are kept, and the table's
/// size behind it.
const LARGE: &str = "\
# 32,768 indexes, of which 390 headers of 42 sum to at most 16,384.
82*32768; 1376256 390 0
# A value of 32,762 octets, in a block of 32,768.
00007ffbfe01 76*32762; 32794 0 0
# 512 headers whose sizes sum to 16,384, and to one more by the last and by the first.
000000*512; 16384 512 0
000000*511 00000161; 16385 511 0
00000161 000000*511; 16385 511 0
# One header whose size is 16,384, and one more.
00007fe17e 76*16352; 16384 1 0
00007fe27e 76*16353; 16385 0 0
# A header of 4,033, which enters the table, itself four times more, and a short one behind the list's limit.
4001617fa11e 76*4000 bebebebe82; 20207 4 4033";

/// What the decoder tells of a large block.
fn told_of_large(rt: &impl Abort, alloc: Global, block: &[u8]) -> String {
    let mut decoder = Decoder::new(alloc);
    match decoder.block(block) {
        Ok(list) => {
            let (size, kept) = (list.size, list.kept.len());
            format!(in alloc; "{size} {kept} {}", decoder.table_size()).expect(rt, "memory")
        }
        Err(_) => panic!(rt; "a large block is refused"),
    }
}

fn assert_large(rt: &impl Abort, alloc: Global, row: &str) {
    let (words, want) = cut(row, "; ");
    let block = octets_of(rt, alloc, words);
    let told = told_of_large(rt, alloc, block.as_slice());
    assert_told(rt, row, told.as_str(), want);
}

#[test]
fn a_list_keeps_its_longest_front(rt: HostRuntime) {
    for row in LARGE.lines() {
        if !row.starts_with('#') {
            assert_large(&rt, rt.alloc(), row);
        }
    }
}
