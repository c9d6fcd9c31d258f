//! Text in the Huffman code (RFC 7541 section 5.2).

use crate::hex::{octets_behind, octets_of};
use crate::told::{assert_octets, cut};
use hb_hpack::{huffman_put, huffman_read};
use std::alloc::Global;
use std::process::Abort;

/// The words of a text, `|`, and the words of the octets that spell it: no octets; `www.example.com`, of RFC 7541 Appendix
/// C.4.1; each octet once, as python3-hpack writes them; and `&*,;`, which have words of eight bits, to a text of 16,384
/// octets, as long in the code.
const CODED: &str = "\
|
7777772e6578616d706c652e636f6d|f1e3c2e5f23a6ba0ab90f4ff
000102030405060708090a0b0c0d0e0f101112131415161718191a1b1c1d1e1f202122232425262728292a2b2c2d2e2f303132333435363738393a3b3c3d3e3f\
404142434445464748494a4b4c4d4e4f505152535455565758595a5b5c5d5e5f606162636465666768696a6b6c6d6e6f707172737475767778797a7b7c7d7e7f\
808182838485868788898a8b8c8d8e8f909192939495969798999a9b9c9d9e9fa0a1a2a3a4a5a6a7a8a9aaabacadaeafb0b1b2b3b4b5b6b7b8b9babbbcbdbebf\
c0c1c2c3c4c5c6c7c8c9cacbcccdcecfd0d1d2d3d4d5d6d7d8d9dadbdcdddedfe0e1e2e3e4e5e6e7e8e9eaebecedeeeff0f1f2f3f4f5f6f7f8f9fafbfcfdfeff|\
ffc7fffd8fffffe2fffffe3fffffe4fffffe5fffffe6fffffe7fffffe8ffffeafffffff3fffffa7fffffabffffffdfffffebfffffecfffffedfffffeefffffef\
ffffff0ffffff1ffffff2fffffffbfffffcffffffd3fffffd7fffffdbfffffdffffffe3fffffe7fffffebfffffed4fe3f9ffaffcabf1febfafefe7fdfd2cbb00\
089969b71d79fb9f7fff20ffbff3ff50ddbd7f061c58f265cd9f469d5af66dddbf871e5f9cff7ff7fffc3ff9ffe45fff4719242cb34e6e9d68a6a3d7dac426de\
fe3cfaf7fffbfe7ffbffdffffffcfffe6ffff4bfff9ffffa3fffd3ffff53fffd5ffffb3fffeb7fffdaffffb7ffff73fffeeffffdeffffebffffbfffffd9ffffd\
bfffebffffe0ffffeeffffc3ffff8bffff1ffffe4fffee7fffb1ffff97fffd9ffffcdffff9fffffbffffdafffeeffff4ffffb7fffee7fffe8ffffd3fffdeffff\
d5fffeeffffbdffffe1fffdfffff7fffff5ffffecffff07fff87fffe0ffff17fffedffff87ffff77fffeffffeaffff8bfffe3ffff93ffff87fffcbffff37ffff\
1fffff83ffffe1fffebfffe3ffff3fffff2ffffa3ffffd9fffff17ffffc7fffff27ffffdefffffbffffff2fffff8fffffb7fff97fff8fffffe6fffffc1fffff8\
7ffffe7fffffc5ffffe5fffe4ffff2fffffd1fffff4ffffffefffffe3fffffc9fffff97fffb3ffffcffffb7fffcdffff4ffff9ffffd1ffffcffffeaffffaffff\
fddffffeffffff4fffff5fffffabffffa7ffffd7fffff9bffffecfffffb7fffff3fffffe8fffffd3fffffabfffff5fffffff7ffffecfffffdbfffffbbfffff7f\
fffff0fffffbbf
262a2c3b*4096|f8f9fafb*4096";

/// A whole end of a string, eight bits of padding, a zero bit of padding, and half a word.
const REFUSED: &str = "ffffffff\nff\nf1ff\n00\n1c\nfe";

/// The text is written so, behind what stands there.
fn assert_put(rt: &impl Abort, alloc: Global, row: &str, text: &[u8], words: &str) {
    let want = octets_behind(rt, alloc, "aa", words);
    let mut put = octets_of(rt, alloc, "aa");
    huffman_put(alloc, text, &mut put).expect(rt, "memory");
    assert_octets(rt, row, put.as_slice(), want.as_slice());
}

/// The octets are read as the text.
fn assert_read(rt: &impl Abort, alloc: Global, row: &str, text: &[u8], words: &str) {
    let octets = octets_of(rt, alloc, words);
    match huffman_read(alloc, octets.as_slice()).expect(rt, "memory") {
        Some(read) => assert_octets(rt, row, read.as_slice(), text),
        None => panic!(rt; "refused: {row}"),
    }
}

fn assert_refused(rt: &impl Abort, alloc: Global, words: &str) {
    let octets = octets_of(rt, alloc, words);
    assert!(rt;
        huffman_read(alloc, octets.as_slice())
            .expect(rt, "memory")
            .is_none(),
        "{words}"
    );
}

/// The text of a row is written as its octets, and read back.
fn assert_row(rt: &impl Abort, alloc: Global, row: &str) {
    let (text, words) = cut(row, "|");
    let text = octets_of(rt, alloc, text);
    assert_put(rt, alloc, row, text.as_slice(), words);
    assert_read(rt, alloc, row, text.as_slice(), words)
}

#[test]
fn text_is_written_and_read_as_elsewhere(rt: HostRuntime) {
    for row in CODED.lines() {
        assert_row(&rt, rt.alloc(), row);
    }
    for words in REFUSED.lines() {
        assert_refused(&rt, rt.alloc(), words);
    }
}
