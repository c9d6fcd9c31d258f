//! What a frame is beside its octets.

ghost use Rattle.std.specs.Prelude.{◌≡◌, ◌≤◌, ◌+◌, length};
ghost use Rattle.hb_frames.specs.Numbers.{largest};
ghost use Rattle.hb_frames.specs.RawFrame.{RawFrame};
ghost use Rattle.hb_frames.specs.Bodies.{IsFrame};
ghost use Rattle.hb_frames.specs.Reading.{asked};
ghost use Rattle.hb_conn.specs.Glance.{has_flag, glance_at, glance_of, IsInRange, Falls};

use hb_frames::numbers::{ACK_FLAG, END_HEADERS_FLAG, END_STREAM_FLAG};
use hb_frames::{Body, Frame, FrameReader};

/// A frame without the octets of its content, which its reader lends.
#[derive(Clone, Copy)]
pub enum Glance {
    /// No whole frame is there.
    Nothing,
    /// DATA; `counted` are the octets of its payload with padding.
    Data {
        stream: u32,
        counted: u32,
        end: bool,
    },
    Headers {
        stream: u32,
        end: bool,
        whole: bool,
    },
    Reset {
        stream: u32,
        code: u32,
    },
    Settings {
        ack: bool,
    },
    Ping {
        ack: bool,
        value: u64,
    },
    GoAway {
        last: u32,
    },
    Window {
        stream: u32,
        increment: u32,
    },
    Continuation {
        stream: u32,
        whole: bool,
    },
    /// PRIORITY, or a type that RFC 9113 doesn't define.
    Other,
    /// A frame that the reader refuses, by a row of the table of refusals.
    Refused {
        code: u32,
        row: u32,
        kind: u8,
        flags: u8,
    },
}

/// The frame without its octets.
fn glance_at(frame: Frame<'_>) -> Glance
    requires { frame.stream ≤ largest }
    ensures value { (f : RawFrame) → IsFrame f frame.entry → result ≡ glance_at f }
    ensures in_range { IsInRange result }
{
    let stream = frame.stream;
    let ack = frame.flags & ACK_FLAG != 0;
    let end = frame.flags & END_STREAM_FLAG != 0;
    let whole = frame.flags & END_HEADERS_FLAG != 0;
    match frame.body {
        Body::Payload { counted, .. } => Glance::Data {
            stream,
            counted,
            end,
        },
        Body::Headers { .. } => Glance::Headers { stream, end, whole },
        Body::Reset { code } => Glance::Reset { stream, code },
        Body::Settings { .. } => Glance::Settings { ack },
        Body::Ping { value } => Glance::Ping { ack, value },
        Body::GoAway { last, .. } => Glance::GoAway { last },
        Body::Window { increment } => Glance::Window { stream, increment },
        Body::Continuation { .. } => Glance::Continuation { stream, whole },
        Body::Priority | Body::Push | Body::Unknown { .. } => Glance::Other,
    }
}

/// The frame in front of what the reader holds, which then doesn't hold it any more.
pub(crate) fn next_glance(reader: &mut FrameReader) -> Glance
    ensures seen { result ≡ glance_of reader.old }
    ensures after { reader.new ≡ asked reader.old }
    ensures in_range { IsInRange result }
    ensures falls { Falls result (length reader.old.held) (length reader.new.held) }
{
    match reader.next_frame() {
        Ok(None) => Glance::Nothing,
        Ok(Some(frame)) => glance_at(frame),
        Err(fault) => Glance::Refused {
            code: fault.code,
            row: fault.row,
            kind: fault.kind,
            flags: fault.flags,
        },
    }
}
