//! Owed frames put.

ghost use Rattle.std.specs.Prelude.{◌≡◌, ◌≤◌};
ghost use Rattle.hb_outgoing.specs.Waiting.{put, room_of};
ghost use Rattle.hb_owed.specs.Dues.{IsStatus, IsDue};
ghost use Rattle.hb_frames.specs.Numbers.{largest};
ghost use Rattle.hb_owed.specs.Frames.{frame_of, status_frame, behind, size_of};
ghost use Rattle.hb_hpack.specs.Encoding.{going};

use crate::due::Due;
use crate::status::Status;
use hb_frames::numbers::{
    DATA, END_HEADERS_FLAG, END_STREAM_FLAG, HEADERS, RST_STREAM, WINDOW_UPDATE,
};
use hb_frames::octets::word;
use hb_hpack::Encoder;
use hb_outgoing::Outgoing;

/// Puts the HEADERS of a status.
fn put_status(stream: u32, status: Status, out: &mut Outgoing, encoder: &mut Encoder)
    requires in_range { stream ≤ largest }
    requires status { IsStatus status }
    requires room { 17 ≤ room_of out.old }
    ensures out { out.new ≡ put (status_frame encoder.old stream status) out.old }
    ensures encoder { encoder.new ≡ going encoder.old }
{
    let mut block = [0u8; 8];
    let size = encoder.put_status_block(status.number, &mut block);
    let flags = if status.end {
        END_HEADERS_FLAG + END_STREAM_FLAG
    } else {
        END_HEADERS_FLAG
    };
    // a block's length is within the array, which its contract doesn't say
    out.put_frame(HEADERS, flags, stream, &block[..size.min(8)]);
}

/// Puts an owed frame, or one in the place of an owed one.
pub fn put_due(stream: u32, due: Due, out: &mut Outgoing, encoder: &mut Encoder)
    requires in_range { stream ≤ largest }
    requires due { IsDue due }
    requires room { size_of due ≤ room_of out.old }
    ensures out { out.new ≡ put (frame_of encoder.old stream due) out.old }
    ensures encoder { encoder.new ≡ behind due encoder.old }
{
    match due {
        Due::Status(status) => put_status(stream, status, out, encoder),
        Due::Credit(n) => out.put_frame(WINDOW_UPDATE, 0, stream, &word(n)),
        Due::End => out.put_frame(DATA, END_STREAM_FLAG, stream, &[]),
        Due::Reset(code) => out.put_frame(RST_STREAM, 0, stream, &word(code)),
    }
}
