//! A frame as the reader gives it.

ghost use Rattle.std.specs.Prelude.{◌≡◌, ◌+◌, ◌≤◌, length, IfOk, IfErr, IfSome, IfNone};
ghost use Rattle.hb_frames.specs.RawFrame.{raw_at, size_at};
ghost use Rattle.hb_frames.specs.Frames.{HasNoFrame};
ghost use Rattle.hb_frames.specs.Reading.{first_of, IsFirst, StandsInFront};
ghost use Rattle.hb_frames.specs.Bodies.{IsFrame};

use crate::body::{Body, body_of};
use crate::head::{HEADER, Head};
use crate::numbers::FRAME_SIZE_ERROR;
use crate::refusal::{Refusal, first_refusal};

/// A frame (RFC 9113 section 4.1). Its type is that of its body.
#[derive(Clone, Copy, Debug)]
pub struct Frame<'a> {
    pub flags: u8,
    pub stream: u32,
    pub body: Body<'a>,
}

/// A length above the reader's maximum.
const TOO_LONG: Refusal = Refusal {
    code: FRAME_SIZE_ERROR,
    row: 2,
};

/// The octets of the frame that the bytes begin with, or None where no whole one stands there.
pub(crate) fn first_frame(bytes: &[u8], max: u32) -> Result<Option<usize>, Refusal>
    ensures value { result ≡ first_of max bytes.now }
    ensures found { IfOk result (λ found. IfSome found (StandsInFront bytes.now)) }
    ensures first { IfOk result (λ found. IfSome found (IsFirst max bytes.now)) }
    ensures none { IfOk result (λ found. IfNone found (HasNoFrame bytes.now)) }
    ensures refused { IfErr result (λ _. 9 ≤ length bytes.now) }
{
    if bytes.len() < HEADER {
        return Ok(None);
    }
    let head = Head::of(bytes);
    if head.size > max {
        return Err(TOO_LONG);
    }
    let end = HEADER + head.size as usize;
    if bytes.len() < end {
        return Ok(None);
    }
    match first_refusal(head, &bytes[HEADER..end]) {
        Some(refusal) => Err(refusal),
        None => Ok(Some(end)),
    }
}

/// The frame that stands in front of the bytes.
pub(crate) fn frame_at(bytes: &[u8], size: usize) -> Frame<'_>
    requires { StandsInFront bytes.now size }
    ensures { IsFrame (raw_at bytes.now) result }
{
    let head = Head::of(bytes);
    Frame {
        flags: head.flags,
        stream: head.stream,
        body: body_of(head, &bytes[HEADER..size]),
    }
}
