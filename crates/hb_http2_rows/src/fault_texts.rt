//! The texts of faults.

use crate::told::assert_told;
use hb_base::Scope;
use hb_blocks::BlockFault;
use hb_frames::FrameFault;
use hb_hpack::{HpackFault, HpackWhy};
use hb_windows::Overrun;
use std::fmt::Display;
use std::process::Abort;

const TEXTS: &str = "\
no entry has this index
an integer is too long
the block is cut short
a string isn't in the Huffman code
the table may not be so large
a size update after a header
a size update after a header, at byte 7
frame at octet 9: type 4, flags 1, error code 6 by row 10
flow-control window: -1 octets held, 12 more asked
";

const WHYS: [HpackWhy; 6] = [
    HpackWhy::BadIndex,
    HpackWhy::LongInteger,
    HpackWhy::Truncated,
    HpackWhy::BadHuffman,
    HpackWhy::BadSize,
    HpackWhy::LateSize,
];

const BLOCK: HpackFault = HpackFault {
    at: 7,
    why: HpackWhy::LateSize,
};

const FRAME: FrameFault = FrameFault {
    code: 6,
    scope: Scope::Connection,
    at: 9,
    row: 10,
    kind: 4,
    flags: 1,
};

const WINDOW: Overrun = Overrun {
    held: -1,
    asked: 12,
};

fn tell_text(rt: &impl Abort, told: &mut String, fault: &impl Display) {
    writeln!(told, "{fault}").expect(rt, "memory");
}

#[test]
fn faults_are_told_by_their_texts(rt: HostRuntime) {
    let mut told = String::new(rt.alloc());
    for why in WHYS {
        tell_text(&rt, &mut told, &why);
    }
    tell_text(&rt, &mut told, &BLOCK);
    tell_text(&rt, &mut told, &FRAME);
    tell_text(&rt, &mut told, &WINDOW);
    assert_told(&rt, "texts", told.as_str(), TEXTS);
}

#[test]
fn faults_of_whole_blocks_are_told_with_their_codes(rt: HostRuntime) {
    let refused = BlockFault::Compression(HpackFault {
        at: 7,
        why: HpackWhy::BadIndex,
    });
    let long = BlockFault::TooLong;
    let told = format!(in rt.alloc(); "{long}, {}; {refused}, {}", long.code(), refused.code());
    let told = told.ok().expect(&rt, "memory");
    let want = "a header block is too long, 11; no entry has this index, at byte 7, 9";
    assert_told(&rt, "texts", told.as_str(), want);
}
