//! One run of blocks, cut at every place.

use crate::block_frames::{Frame, told_of};
use crate::hex::octets_of;
use crate::told::{assert_told, cut};
use hb_blocks::Blocks;
use std::alloc::Global;
use std::process::Abort;

/// The requests of RFC 7541 Appendix C.3, which one decoder reads, and what is told of each.
const REQUESTS: &str = "\
828684410f7777772e6578616d706c652e636f6d => w1e 180 |:method|GET|:scheme|http|:path|/|:authority|www.example.com
828684be58086e6f2d6361636865 => w1e 233 |:method|GET|:scheme|http|:path|/|:authority|www.example.com|cache-control|no-cache
828785bf400a637573746f6d2d6b65790c637573746f6d2d76616c7565 => w1e 245 \
|:method|GET|:scheme|https|:path|/index.html|:authority|www.example.com|custom-key|custom-value";

/// The octets of the longest of them.
const LONGEST: usize = 29;

fn frame_of(fragment: &[u8], end_headers: bool) -> Frame<'_> {
    Frame {
        stream: 1,
        end_stream: true,
        fragment,
        end_headers,
    }
}

/// What is told of the last fragment of a block that comes in two.
fn told_in_two(
    rt: &impl Abort,
    blocks: &mut Blocks,
    alloc: Global,
    block: &[u8],
    at: usize,
) -> String {
    let (front, back) = block.split_at(at.min(block.len()));
    told_of(rt, alloc, blocks, frame_of(front, false));
    told_of(rt, alloc, blocks, frame_of(back, true))
}

/// What is told of the last fragment of a block that comes in fragments of so many octets.
fn told_in_pieces(
    rt: &impl Abort,
    blocks: &mut Blocks,
    alloc: Global,
    block: &[u8],
    size: usize,
) -> String {
    let mut left = block.len();
    let mut told = String::new(alloc);
    for piece in block.chunks(size.max(1)) {
        left = left.saturating_sub(piece.len());
        told = told_of(rt, alloc, blocks, frame_of(piece, left == 0));
    }
    told
}

/// The row's block is told as it is whole, cut in two at this place, or into pieces of so many octets.
fn assert_row(
    rt: &impl Abort,
    alloc: Global,
    blocks: &mut Blocks,
    row: &str,
    number: usize,
    in_two: bool,
) {
    let (digits, want) = cut(row, " => ");
    let block = octets_of(rt, alloc, digits);
    let told = if in_two {
        told_in_two(rt, blocks, alloc, block.as_slice(), number)
    } else {
        told_in_pieces(rt, blocks, alloc, block.as_slice(), number)
    };
    assert_told(rt, row, told.as_str(), want);
}

fn assert_rows(rt: &impl Abort, alloc: Global, number: usize, in_two: bool) {
    let mut blocks = Blocks::new(alloc);
    for row in REQUESTS.lines() {
        assert_row(rt, alloc, &mut blocks, row, number, in_two);
    }
}

#[test]
fn blocks_cut_in_two_are_told_as_whole_ones(rt: HostRuntime) {
    for at in 0..LONGEST + 1 {
        assert_rows(&rt, rt.alloc(), at, true);
    }
}

#[test]
fn blocks_cut_into_pieces_are_told_as_whole_ones(rt: HostRuntime) {
    for size in 1..LONGEST + 1 {
        assert_rows(&rt, rt.alloc(), size, false);
    }
}
