//! The refusals that one frame alone can tell.

ghost use Rattle.std.specs.Prelude.{◌≡◌, ◌+◌, ◌*◌, ◌≤◌, [], length, slice_index, IfNone};
ghost use Rattle.hb_frames.specs.FrameOf.{frame_of};
ghost use Rattle.hb_frames.specs.Refusals.{refuses, stream_refusal, padding_refusal, size_refusal, front_len, padding_len};
ghost use Rattle.hb_frames.specs.Refusals.{has_content, is_padded, has_priority, has_wrong_size, is_refused_setting, settings};
ghost use Rattle.hb_frames.specs.Refusals.{value_refusal, first_refusal};
ghost use Rattle.hb_frames.specs.Shapes.{PaddingFits, NumbersFit, IsShaped};
ghost use Rattle.hb_frames.specs.Octets.{four_at};
ghost use Rattle.std.specs.List.{list_any};

use crate::head::Head;
use crate::numbers::{
    ACK_FLAG, DATA, ENABLE_PUSH, FIRST_FRAME_SIZE, FRAME_SIZE_ERROR, GOAWAY, HEADERS,
    LARGEST_FRAME_SIZE, MAX_FRAME_SIZE, PADDED_FLAG, PING, PRIORITY, PRIORITY_FLAG, PROTOCOL_ERROR,
    PUSH_PROMISE, RST_STREAM, SETTINGS, WINDOW_UPDATE,
};
use crate::octets::word_at;

/// An error code (RFC 9113 section 7) and the row of the refusal table that gives it.
#[derive(Clone, Copy)]
pub struct Refusal {
    pub code: u32,
    pub row: u32,
}

/// DATA, HEADERS, PRIORITY and RST_STREAM belong to a stream, SETTINGS, PING and GOAWAY to the
/// connection; PUSH_PROMISE is never allowed.
fn stream_refusal(head: Head) -> Option<Refusal>
    ensures { result ≡ stream_refusal (frame_of head []) }
{
    let of_stream = matches!(head.kind, DATA | HEADERS | PRIORITY | RST_STREAM);
    let of_connection = matches!(head.kind, SETTINGS | PING | GOAWAY);
    if of_stream && head.stream == 0 {
        Some(Refusal {
            code: PROTOCOL_ERROR,
            row: 5,
        })
    } else if of_connection && head.stream != 0 {
        Some(Refusal {
            code: PROTOCOL_ERROR,
            row: 6,
        })
    } else if head.kind == PUSH_PROMISE {
        Some(Refusal {
            code: PROTOCOL_ERROR,
            row: 7,
        })
    } else {
        None
    }
}

/// Whether the payload has a content, which DATA and HEADERS have.
pub(crate) fn has_content(head: Head) -> bool
    ensures { result ≡ has_content (frame_of head []) }
{
    head.kind == DATA || head.kind == HEADERS
}

fn is_padded(head: Head) -> bool
    ensures { result ≡ is_padded (frame_of head []) }
{
    has_content(head) && head.flags & PADDED_FLAG != 0
}

/// The octets in front of the content: the padding's length, and a priority's five.
pub(crate) fn front_len(head: Head) -> usize
    ensures value { result ≡ front_len (frame_of head []) }
    ensures small { result ≤ 6 }
{
    let padding_field = if is_padded(head) { 1 } else { 0 };
    let priority = if head.kind == HEADERS && head.flags & PRIORITY_FLAG != 0 {
        5
    } else {
        0
    };
    padding_field + priority
}

pub(crate) fn padding_len(head: Head, payload: &[u8]) -> usize
    requires { front_len (frame_of head payload.now) ≤ length payload.now }
    ensures value { result ≡ padding_len (frame_of head payload.now) }
    ensures small { result ≤ 255 }
{
    if is_padded(head) {
        payload[0] as usize
    } else {
        0
    }
}

fn padding_refusal(head: Head, payload: &[u8]) -> Option<Refusal>
    ensures value { result ≡ padding_refusal (frame_of head payload.now) }
    ensures fits { IfNone result (PaddingFits (frame_of head payload.now)) }
{
    let front = front_len(head);
    if payload.len() < front {
        Some(Refusal {
            code: FRAME_SIZE_ERROR,
            row: 8,
        })
    } else if payload.len() < front + padding_len(head, payload) {
        Some(Refusal {
            code: PROTOCOL_ERROR,
            row: 9,
        })
    } else {
        None
    }
}

fn has_wrong_size(head: Head, payload: &[u8]) -> bool
    ensures { result ≡ has_wrong_size (frame_of head payload.now) }
{
    let size = payload.len();
    match head.kind {
        PRIORITY => size != 5,
        RST_STREAM => size != 4,
        SETTINGS => size % 6 != 0 || (head.flags & ACK_FLAG != 0 && size != 0),
        PING => size != 8,
        GOAWAY => size < 8,
        WINDOW_UPDATE => size != 4,
        _ => false,
    }
}

fn size_refusal(head: Head, payload: &[u8]) -> Option<Refusal>
    ensures value { result ≡ size_refusal (frame_of head payload.now) }
    ensures fits { IfNone result (NumbersFit (frame_of head payload.now)) }
{
    if has_wrong_size(head, payload) {
        Some(Refusal {
            code: FRAME_SIZE_ERROR,
            row: 10,
        })
    } else {
        None
    }
}

/// Whether the first setting of the payload is out of its range.
fn is_refused_setting(settings: &[u8]) -> bool
    requires { 6 ≤ length settings.now }
    ensures { result
        ≡ is_refused_setting (slice_index settings.now 0 * 256 + slice_index settings.now 1, four_at settings.now 2) }
{
    let identifier = settings[0] as u32 * 0x100 + settings[1] as u32;
    let value = word_at(settings, 2);
    match identifier {
        ENABLE_PUSH => value > 1,
        MAX_FRAME_SIZE => value < FIRST_FRAME_SIZE || value > LARGEST_FRAME_SIZE,
        _ => false,
    }
}

fn has_refused_setting(payload: &[u8]) -> bool
    ensures { result ≡ list_any is_refused_setting (settings payload.now) }
{
    let mut left = payload;
    while left.len() >= 6 {
        if is_refused_setting(left) {
            return true;
        }
        left = left.split_at(6).1;
    }
    false
}

fn value_refusal(head: Head, payload: &[u8]) -> Option<Refusal>
    requires { size_refusal (frame_of head payload.now) ≡ None }
    ensures { result ≡ value_refusal (frame_of head payload.now) }
{
    if head.kind == SETTINGS && has_refused_setting(payload) {
        Some(Refusal {
            code: PROTOCOL_ERROR,
            row: 11,
        })
    } else if head.kind == WINDOW_UPDATE
        && head.stream == 0
        && word_at(payload, 0) % 0x8000_0000 == 0
    {
        Some(Refusal {
            code: PROTOCOL_ERROR,
            row: 13,
        })
    } else {
        None
    }
}

/// The first row that refuses the frame, of those that one frame alone can tell.
pub(crate) fn first_refusal(head: Head, payload: &[u8]) -> Option<Refusal>
    ensures value { result ≡ first_refusal (frame_of head payload.now) }
    ensures shaped { IfNone result (IsShaped (frame_of head payload.now)) }
{
    if let Some(refused) = stream_refusal(head) {
        return Some(refused);
    }
    if let Some(refused) = padding_refusal(head, payload) {
        return Some(refused);
    }
    if let Some(refused) = size_refusal(head, payload) {
        return Some(refused);
    }
    value_refusal(head, payload)
}
