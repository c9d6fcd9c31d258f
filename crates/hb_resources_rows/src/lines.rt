//! What lines tell. A test ends where memory is wanting or a row is none.

use crate::hex::push_digits;
use crate::lines_told::TOLD;
use crate::told::same;
use hb_base::{List, Text};
use hb_disco::{Kind, read_response};
use hb_held::{Held, Outcome, OwnDoors, Refusal, RefusedWhy};
use hb_lines::{outcome_line, refused_line, row_line};
use hb_records::RecordFault;
use std::alloc::Global;
use std::process::Abort;

/// A line as the rows have it.
fn tell(rt: &impl Abort, told: &mut String, line: &[u8]) {
    for byte in line {
        match byte {
            b' '..=b';' | b'='..=b'~' => told.push(char::from(*byte)).expect(rt, "memory"),
            _ => write!(told, "<{byte:02x}>").expect(rt, "memory"),
        }
    }
}

/// What was read of a block: octets of a response that isn't applied yet, and lines that are wanted; what is held, and was told.
#[derive(Drop)]
struct Block {
    held: Held,
    bytes: Vec<u8>,
    told: String,
    want: String,
}

impl Block {
    fn new(alloc: Global) -> Block {
        let (network, node) = (Text::empty(alloc), Text::empty(alloc));
        Block {
            held: Held::new(alloc, network, node, OwnDoors::none()),
            bytes: Vec::new(alloc),
            told: String::new(alloc),
            want: String::new(alloc),
        }
    }

    /// Applies the response that was read.
    fn apply(&mut self, rt: &impl Abort, alloc: Global) {
        let response = read_response(alloc, self.bytes.as_slice())
            .ok()
            .expect(rt, "a response");
        let outcome = self.held.apply(alloc, &response).expect(rt, "memory");
        let line = outcome_line(alloc, response.kind, &response.nonce, &outcome);
        tell(rt, &mut self.told, line.expect(rt, "memory").as_slice());
        self.bytes.clear();
    }

    fn line(&mut self, rt: &impl Abort, alloc: Global, line: &str) {
        match line.strip_prefix('<') {
            Some(digits) => push_digits(rt, &mut self.bytes, digits),
            None => {
                if !self.bytes.is_empty() {
                    self.apply(rt, alloc);
                }
                let text = line.strip_prefix('>').expect(rt, "a line");
                self.want.push_str(text).expect(rt, "memory");
            }
        }
    }

    fn lines(&mut self, rt: &impl Abort, alloc: Global, lines: &str) {
        for line in lines.lines() {
            self.line(rt, alloc, line);
        }
    }

    /// Tells what is held.
    fn tell_held(&mut self, rt: &impl Abort, alloc: Global) {
        for row in self.held.rows() {
            let line = row_line(alloc, &row).expect(rt, "memory");
            tell(rt, &mut self.told, line.as_slice());
        }
    }
}

fn assert_block(rt: &impl Abort, alloc: Global, lines: &str) {
    let mut block = Block::new(alloc);
    block.lines(rt, alloc, lines);
    block.tell_held(rt, alloc);
    same(rt, lines, block.told.as_str(), block.want.as_str());
}

fn assert_blocks(rt: &impl Abort, alloc: Global, blocks: &[u8]) {
    for block in std::str::from_utf8(blocks)
        .unwrap_or("no text")
        .split("\n\n")
    {
        assert_block(rt, alloc, block);
    }
}

#[test]
fn lines_tell_what_responses_did_and_what_is_held(rt: HostRuntime) {
    assert_blocks(&rt, rt.alloc(), TOLD);
}

/// An outcome with one refusal.
fn refused(rt: &impl Abort, alloc: Global, why: RefusedWhy) -> Outcome {
    let mut refused = List::new(alloc);
    let name = Text::empty(alloc);
    refused.push(Refusal { name, why }).expect(rt, "memory");
    Outcome {
        refused,
        changed: List::new(alloc),
        applied: u64::MAX,
        removed: 1,
    }
}

fn assert_why(rt: &impl Abort, alloc: Global, why: RefusedWhy, want: &str) {
    let outcome = refused(rt, alloc, why);
    let line = outcome_line(alloc, Kind::Authorization, &Text::empty(alloc), &outcome);
    let line = line.expect(rt, "memory");
    let text = std::str::from_utf8(line.as_slice()).unwrap_or("no text");
    let text = text.strip_prefix(FRONT).unwrap_or("another front");
    let told = text.strip_suffix(BACK).unwrap_or("another back");
    same(rt, want, told, want);
}

/// What stands before the reason, and behind it.
const FRONT: &str =
    "{\"applied\":18446744073709551615,\"kind\":\"authorization\",\"nonce\":\"\",\"refused\":[{\"name\":\"\",\"why\":\"";

const BACK: &str = "\"}],\"removed\":1}\n";

/// Reasons that take many resources or entries, and the greatest numbers.
#[test]
fn reasons_are_told(rt: HostRuntime) {
    let count = 4097;
    let field = u32::MAX;
    for (why, want) in [
        (RefusedWhy::Full, "full"),
        (
            RefusedWhy::Record(RecordFault::TooMany { field: 22, count }),
            "too many in field 22",
        ),
        (
            RefusedWhy::Record(RecordFault::TooMany { field, count }),
            "too many in field 4294967295",
        ),
        (
            RefusedWhy::Record(RecordFault::NoKind { field }),
            "no kind in field 4294967295",
        ),
    ] {
        assert_why(&rt, rt.alloc(), why, want);
    }
}

/// A resource that was refused: a plain name stands as it is, any other as a string of JSON, and so do reasons of more than a word.
#[test]
fn refused_resources_are_told(rt: HostRuntime) {
    let field = 3;
    for (kind, name, why, want) in [
        (
            Kind::Authorization,
            "a/bad",
            RefusedWhy::Record(RecordFault::BadEnum { field, value: 7 }),
            "refused kind=authorization name=a/bad why=\"bad enum 7 in field 3\"\n",
        ),
        (
            Kind::Address,
            "",
            RefusedWhy::NoName,
            "refused kind=address name=\"\" why=\"no name\"\n",
        ),
        (
            Kind::Address,
            "a b\nrefused",
            RefusedWhy::Full,
            "refused kind=address name=\"a b\\nrefused\" why=full\n",
        ),
    ] {
        let name = Text::of_str(rt.alloc(), name).expect(&rt, "memory");
        let line = refused_line(rt.alloc(), kind, &Refusal { name, why });
        let line = line.expect(&rt, "memory");
        assert!(&rt; line.as_str() == want, "{line}");
    }
}
