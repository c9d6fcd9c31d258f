//! Header blocks that are written, and read back.

use crate::blocks::{assert_line, block_of, shown_of, told_of};
use crate::hex::octets_behind;
use crate::told::{assert_octets, assert_told, cut};
use hb_base::{Bytes, List};
use hb_hpack::{Decoder, Encoder, Header, Spelling};
use std::alloc::Global;
use std::process::Abort;

/// Headers, each a name, `=` and a value, with blanks between, so many times over; their list's size; and the words of
/// their representations.
struct Written {
    spelling: Spelling,
    headers: &'static str,
    times: usize,
    size: u64,
    kept: usize,
    block: &'static str,
}

/// Worked by hand from RFC 7541 section 6: indexed where the static table has the header, else a literal without
/// indexing, its name indexed where the table has it.
static WRITTEN: [Written; 4] = [
    Written {
        spelling: Spelling::Plain,
        headers: ":method=CONNECT :authority=www.example.com :method=GET x=y",
        times: 1,
        size: 179,
        kept: 4,
        block: "0207434f4e4e454354010f7777772e6578616d706c652e636f6d820001780179",
    },
    Written {
        spelling: Spelling::Huffman,
        headers: ":authority=www.example.com :method=GET x=y",
        times: 1,
        size: 133,
        kept: 3,
        block: "018cf1e3c2e5f23a6ba0ab90f4ff820081f381f5",
    },
    // 512 headers, of which 481 of 34 octets sum to at most 16,384.
    Written {
        spelling: Spelling::Plain,
        headers: "x=y",
        times: 512,
        size: 17_408,
        kept: 481,
        block: "0001780179*512",
    },
    Written {
        spelling: Spelling::Huffman,
        headers: "x=y",
        times: 512,
        size: 17_408,
        kept: 481,
        block: "0081f381f5*512",
    },
];

fn bytes_of(rt: &impl Abort, alloc: Global, text: &str) -> Bytes {
    Bytes::of(alloc, text.as_bytes()).expect(rt, "memory")
}

fn header_of(rt: &impl Abort, alloc: Global, word: &str) -> Header {
    let (name, value) = cut(word, "=");
    Header {
        name: bytes_of(rt, alloc, name),
        value: bytes_of(rt, alloc, value),
    }
}

fn push_headers(rt: &impl Abort, alloc: Global, headers: &mut List<Header>, words: &str) {
    for word in words.split(' ') {
        headers
            .push(header_of(rt, alloc, word))
            .expect(rt, "memory");
    }
}

fn list_of(rt: &impl Abort, alloc: Global, row: &Written) -> List<Header> {
    let mut headers = List::new(alloc);
    for _ in 0..row.times {
        push_headers(rt, alloc, &mut headers, row.headers);
    }
    headers
}

fn written_of(
    rt: &impl Abort,
    alloc: Global,
    encoder: &mut Encoder,
    headers: &List<Header>,
) -> Vec<u8> {
    let mut block = Vec::new(alloc);
    encoder
        .block(alloc, headers, &mut block)
        .expect(rt, "memory");
    block
}

/// What a decoder is to tell of the row's block.
fn told_of_row(rt: &impl Abort, alloc: Global, headers: &List<Header>, row: &Written) -> String {
    assert!(rt; row.kept <= headers.len());
    let shown = shown_of(rt, alloc, &headers.as_slice()[..row.kept]);
    format!(in alloc; "r {} {} 0 {shown}", row.block, row.size).expect(rt, "memory")
}

/// The headers are written as the opening and the row's block.
fn assert_written(rt: &impl Abort, alloc: Global, opening: &str, row: &Written, block: &[u8]) {
    let want = octets_behind(rt, alloc, opening, row.block);
    assert_octets(rt, row.block, block, want.as_slice());
}

/// The row's block is read back.
fn assert_read_back(
    rt: &impl Abort,
    alloc: Global,
    decoder: &mut Decoder,
    headers: &List<Header>,
    row: &Written,
    block: &[u8],
) {
    let want = told_of_row(rt, alloc, headers, row);
    let told = told_of(rt, alloc, decoder, row.block, block);
    assert_told(rt, row.block, told.as_str(), want.as_str());
}

/// The headers are written behind the opening, and are read back.
fn assert_block(
    rt: &impl Abort,
    alloc: Global,
    encoder: &mut Encoder,
    decoder: &mut Decoder,
    headers: &List<Header>,
    opening: &str,
    row: &Written,
) {
    let block = written_of(rt, alloc, encoder, headers);
    assert_written(rt, alloc, opening, row, block.as_slice());
    assert_read_back(rt, alloc, decoder, headers, row, block.as_slice());
}

/// The headers are written behind the table's size, and again without it, and are read back.
fn assert_row(rt: &impl Abort, alloc: Global, row: &Written) {
    let headers = list_of(rt, alloc, row);
    let mut encoder = Encoder::new(row.spelling);
    let mut decoder = Decoder::new(alloc);
    assert_block(rt, alloc, &mut encoder, &mut decoder, &headers, "20", row);
    assert_block(rt, alloc, &mut encoder, &mut decoder, &headers, "", row);
}

#[test]
fn blocks_are_written_and_read_back(rt: HostRuntime) {
    for row in &WRITTEN {
        assert_row(&rt, rt.alloc(), row);
    }
}

/// Blocks of statuses as the tables of blocks have them, an empty table's size in front: those of the static table,
/// and others.
const STATUSES: &str = "\
r 2088 42 0 |:status|200
r 2089 42 0 |:status|204
r 208a 42 0 |:status|206
r 208b 42 0 |:status|304
r 208c 42 0 |:status|400
r 208d 42 0 |:status|404
r 208e 42 0 |:status|500
r 200803313030 42 0 |:status|100
r 200803353033 42 0 |:status|503
r 200803393939 42 0 |:status|999";

/// The status is written as these octets at the front, and the others stay.
fn assert_status(
    rt: &impl Abort,
    alloc: Global,
    encoder: &mut Encoder,
    status: u16,
    opening: &str,
    words: &str,
) {
    assert!(rt; 100 <= status && status < 1000);
    let mut into = [0xaau8; 9];
    let size = encoder.put_status_block(status, &mut into);
    let mut want = octets_behind(rt, alloc, opening, words);
    assert!(rt; size == want.len());
    want.resize(9, 0xaa).expect(rt, "memory");
    assert_octets(rt, words, into.as_slice(), want.as_slice());
}

/// The status of a line is written first with the size of the table, and then without, and the line is read back.
fn assert_statuses(rt: &impl Abort, alloc: Global, line: &str) {
    let (_, status) = cut(line, "|:status|");
    let status = status.parse::<u16>().ok().expect(rt, "a status");
    let (_, words) = cut(block_of(line), "20");
    let mut encoder = Encoder::new(Spelling::Huffman);
    assert_status(rt, alloc, &mut encoder, status, "20", words);
    assert_status(rt, alloc, &mut encoder, status, "", words);
    assert_line(rt, alloc, &mut Decoder::new(alloc), line)
}

#[test]
fn statuses_are_written(rt: HostRuntime) {
    for line in STATUSES.lines() {
        assert_statuses(&rt, rt.alloc(), line);
    }
}
