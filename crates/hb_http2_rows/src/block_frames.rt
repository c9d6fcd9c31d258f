//! Frames of header blocks, and what they are answered, in words.

use hb_base::Or;
use hb_blocks::{BlockFault, Blocks, Whole};
use hb_hpack::Header;
use std::alloc::Global;
use std::process::Abort;

/// A HEADERS frame, or a CONTINUATION frame, of which the stream and `end_stream` aren't looked at.
#[derive(Clone, Copy)]
pub struct Frame<'a> {
    pub stream: u32,
    pub end_stream: bool,
    pub fragment: &'a [u8],
    pub end_headers: bool,
}

/// The frame comes: CONTINUATION where a block is open, HEADERS where none is.
fn come(blocks: &mut Blocks, frame: Frame<'_>) -> Result<Option<Whole>, Or<BlockFault>> {
    match blocks.open() {
        Some(_) => blocks.go_on(frame.fragment, frame.end_headers),
        None => blocks.begin(
            frame.stream,
            frame.end_stream,
            frame.fragment,
            frame.end_headers,
        ),
    }
}

/// Appends a text that has printed letters alone.
fn show(rt: &impl Abort, shown: &mut String, text: &[u8]) {
    let text = std::str::from_utf8(text).ok().expect(rt, "a text");
    shown.push_str("|").expect(rt, "memory");
    shown.push_str(text).expect(rt, "memory");
}

/// The headers that are lent: of each `|`, its name, `|` and its value.
fn show_headers(rt: &impl Abort, shown: &mut String, headers: &[Header]) {
    for header in headers {
        show(rt, shown, header.name.as_slice());
        show(rt, shown, header.value.as_slice());
    }
}

/// What is told of a block that is whole: `w`, its stream, `e` where it had END_STREAM, the size of its list, and its
/// headers.
fn told_of_whole(rt: &impl Abort, alloc: Global, blocks: &Blocks, whole: Whole) -> String {
    let end = if whole.end_stream { "e" } else { "" };
    let size = blocks.headers().size;
    let told = format!(in alloc; "w{}{end} {size} ", whole.stream);
    let mut told = told.ok().expect(rt, "memory");
    show_headers(rt, &mut told, blocks.headers().kept.as_slice());
    told
}

/// What is told of a block that isn't: `-`, its stream, the size of the list that is lent meanwhile, and its headers.
fn told_of_open(rt: &impl Abort, alloc: Global, blocks: &Blocks) -> String {
    let stream = blocks.open().expect(rt, "an open block");
    let size = blocks.headers().size;
    let told = format!(in alloc; "-{stream} {size} ");
    let mut told = told.ok().expect(rt, "memory");
    show_headers(rt, &mut told, blocks.headers().kept.as_slice());
    told
}

/// What the frame is answered; `f` and the error code where it is refused.
pub fn told_of(rt: &impl Abort, alloc: Global, blocks: &mut Blocks, frame: Frame<'_>) -> String {
    match come(blocks, frame) {
        Ok(Some(whole)) => told_of_whole(rt, alloc, blocks, whole),
        Ok(None) => told_of_open(rt, alloc, blocks),
        Err(Or::Fault(fault)) => {
            let told = format!(in alloc; "f{}", fault.code());
            told.ok().expect(rt, "memory")
        }
        Err(Or::NoMemory) => panic!(rt; "memory"),
    }
}
