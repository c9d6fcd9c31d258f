//! What the payload of each frame type is.

ghost use Rattle.std.specs.Prelude.{◌<◌, ◌^◌, length};
ghost use Rattle.hb_frames.specs.FrameOf.{frame_of};
ghost use Rattle.hb_frames.specs.Bodies.{Shows, Pads};
ghost use Rattle.hb_frames.specs.Shapes.{IsShaped};

use crate::head::Head;
use crate::numbers::{
    CONTINUATION, DATA, GOAWAY, HEADERS, PING, PRIORITY, PUSH_PROMISE, RST_STREAM, SETTINGS,
    WINDOW_UPDATE,
};
use crate::octets::word_at;
use crate::refusal::{front_len, padding_len};

/// The payload of a frame by its type (RFC 9113 section 6).
#[derive(Clone, Copy, Debug)]
pub enum Body<'a> {
    /// DATA: its bytes without padding, and the octets that count against flow control, which are all
    /// of the payload.
    Payload { bytes: &'a [u8], counted: u32 },
    /// HEADERS: its field block fragment, without padding and priority.
    Headers { block: &'a [u8] },
    /// PRIORITY, of which nothing is used.
    Priority,
    /// RST_STREAM: its error code.
    Reset { code: u32 },
    /// SETTINGS: its identifiers of two octets with their values of four.
    Settings { pairs: &'a [u8] },
    /// PUSH_PROMISE, which the reader refuses.
    Push,
    /// PING: its eight octets as a number.
    Ping { value: u64 },
    /// GOAWAY: the last stream, without its reserved bit, and the error code.
    GoAway { last: u32, code: u32 },
    /// WINDOW_UPDATE: the increment, without its reserved bit.
    Window { increment: u32 },
    /// CONTINUATION: its field block fragment.
    Continuation { block: &'a [u8] },
    /// A frame of a type that RFC 9113 doesn't define.
    Unknown { kind: u8 },
}

/// A DATA or HEADERS payload without what stands in front of its content and without its padding.
fn content_of<'a>(head: Head, payload: &'a [u8]) -> &'a [u8]
    requires { IsShaped (frame_of head payload.now) }
    ensures { Pads (frame_of head payload.now) result.now }
{
    &payload[front_len(head)..payload.len() - padding_len(head, payload)]
}

/// The body of a frame that isn't refused.
pub(crate) fn body_of<'a>(head: Head, payload: &'a [u8]) -> Body<'a>
    requires shaped { IsShaped (frame_of head payload.now) }
    requires short { length payload.now < 2 ^ 32 }
    ensures { Shows (frame_of head payload.now) result }
{
    match head.kind {
        DATA => Body::Payload {
            bytes: content_of(head, payload),
            counted: payload.len() as u32,
        },
        HEADERS => Body::Headers {
            block: content_of(head, payload),
        },
        PRIORITY => Body::Priority,
        RST_STREAM => Body::Reset {
            code: word_at(payload, 0),
        },
        SETTINGS => Body::Settings { pairs: payload },
        PUSH_PROMISE => Body::Push,
        PING => Body::Ping {
            value: word_at(payload, 0) as u64 * 0x1_0000_0000 + word_at(payload, 4) as u64,
        },
        GOAWAY => Body::GoAway {
            last: word_at(payload, 0) % 0x8000_0000,
            code: word_at(payload, 4),
        },
        WINDOW_UPDATE => Body::Window {
            increment: word_at(payload, 0) % 0x8000_0000,
        },
        CONTINUATION => Body::Continuation { block: payload },
        kind => Body::Unknown { kind },
    }
}
