//! Walks over whole frames that stand one after the other in octets.

ghost use Rattle.std.specs.Prelude.{◌≡◌, ◌+◌, ◌-◌, ◌≤◌, ◌<◌, ◌++◌, ◌==◌, length, take, drop, None, is_some, not, ◌&&◌, ◌||◌, if◌then◌else◌};
ghost use Rattle.std.specs.List.{filter, list_any};
ghost use Rattle.hb_frames.specs.Numbers.{data_kind};
ghost use Rattle.hb_frames.specs.RawFrame.{raw_at, spelling, size_at};
ghost use Rattle.hb_outgoing.specs.Waiting.{spelled, head_of};
ghost use Rattle.hb_outgoing.specs.Queue.{frames_of, AreWhole, IsPlaced};
ghost use Rattle.hb_outgoing.specs.Written.{begun_in, last_head};
ghost use Rattle.hb_outgoing.specs.Selected.{is_meant, is_kept, data_size, counted, data_count, frame_ends, ends, first_data};

use crate::head::Head;
use crate::unbegun::Unbegun;
use hb_frames::Output;
use hb_frames::numbers::{DATA, END_STREAM_FLAG, HEADERS};
use hb_frames::octets::word_at;

/// The octets of a frame's header (RFC 9113 section 4.1).
const HEADER: usize = 9;

/// A frame's head, and the octets of its payload.
#[derive(Clone, Copy)]
struct Queued {
    head: Head,
    size: u32,
}

/// The frame in front of the octets.
fn first_frame(bytes: &[u8]) -> Queued
    requires { 9 ≤ length bytes.now }
    ensures kind { result.head.kind ≡ (raw_at bytes.now).kind }
    ensures flags { result.head.flags ≡ (raw_at bytes.now).flags }
    ensures stream { result.head.stream ≡ (raw_at bytes.now).stream }
    ensures size { result.size ≡ size_at bytes.now }
{
    let size = bytes[0] as u32 * 0x1_0000 + bytes[1] as u32 * 0x100 + bytes[2] as u32;
    let head = Head {
        kind: bytes[3],
        flags: bytes[4],
        stream: word_at(bytes, 5) % 0x8000_0000,
    };
    Queued { head, size }
}

/// The frame that begins at a place.
fn frame_at(bytes: &[u8], at: usize) -> Queued
    requires whole { AreWhole (drop at bytes.now) }
    requires more { at < length bytes.now }
    ensures head { result.head ≡ head_of (raw_at (drop at bytes.now)) }
    ensures placed { IsPlaced bytes.now at result.size }
{
    first_frame(&bytes[at..])
}

/// 1 where the frame is DATA.
pub(crate) fn count_of(kind: u8) -> usize
    ensures { result ≡ counted kind }
{
    usize::from(kind == DATA)
}

/// Where the last frame ends that begins before the first `n` octets are written, its head, and how many of those
/// that begin are DATA.
pub(crate) fn begin(
    bytes: &[u8],
    rest: usize,
    begun: Option<Head>,
    n: usize,
) -> (usize, Option<Head>, usize)
    requires fits { n ≤ length bytes.now }
    requires order { rest ≤ length bytes.now }
    requires whole { AreWhole (drop rest bytes.now) }
    ensures passes { n ≤ result.0 }
    ensures within { result.0 ≤ length bytes.now }
    ensures later { AreWhole (drop result.0 bytes.now) }
    ensures octets { take result.0 bytes.now
        ≡ take rest bytes.now ++ spelled (begun_in (n - rest) (frames_of (drop rest bytes.now))) }
    ensures queue { frames_of (drop result.0 bytes.now)
        ≡ drop (length (begun_in (n - rest) (frames_of (drop rest bytes.now)))) (frames_of (drop rest bytes.now)) }
    ensures head { result.1 ≡ last_head begun (begun_in (n - rest) (frames_of (drop rest bytes.now))) }
    ensures count { result.2 ≡ data_count (begun_in (n - rest) (frames_of (drop rest bytes.now))) }
{
    let mut end = rest;
    let mut head = begun;
    let mut count = 0;
    while end < n {
        let next = frame_at(bytes, end);
        head = Some(next.head);
        count += count_of(next.head.kind);
        end += HEADER + next.size as usize;
    }
    (end, head, count)
}

/// What is begun where so many octets of it wait.
pub(crate) fn while_waits(rest: usize, begun: Option<Head>) -> Option<Head>
    ensures { result ≡ (if rest == 0 then None else begun) }
{
    if rest == 0 { None } else { begun }
}

/// It is a DATA frame of the stream; None: of any.
fn is_data_of(stream: Option<u32>, head: Head) -> bool
    ensures { result ≡ (head.kind == data_kind && is_meant stream head.stream) }
{
    head.kind == DATA
        && match stream {
            None => true,
            Some(one) => head.stream == one,
        }
}

/// Takes the stream's DATA frames out, None: those of all streams. So many DATA frames stand from a place on. Says how
/// many octets of payload they had, and how many DATA frames are left.
pub(crate) fn take_data(
    output: &mut Output,
    from: usize,
    count: usize,
    stream: Option<u32>,
) -> (u32, usize)
    requires order { from ≤ length output.old.items }
    requires small { length output.old.items ≤ 65536 }
    requires whole { AreWhole (drop from output.old.items) }
    requires counted { count ≡ data_count (frames_of (drop from output.old.items)) }
    ensures value { result.0 ≡ data_size stream (frames_of (drop from output.old.items)) }
    ensures count { result.1 ≡ data_count (filter (is_kept stream) (frames_of (drop from output.old.items))) }
    ensures left { output.new ≡ record output.old {
      items = take from output.old.items ++ spelled (filter (is_kept stream) (frames_of (drop from output.old.items)));
    } }
{
    let mut at = from;
    let mut ahead = count;
    let mut taken = 0;
    let mut kept = 0;
    while ahead > 0 {
        let next = frame_at(output.front(), at);
        let end = HEADER + next.size as usize;
        ahead -= count_of(next.head.kind);
        if is_data_of(stream, next.head) {
            output.cut(at, end);
            taken += next.size;
        } else {
            kept += count_of(next.head.kind);
            at += end;
        }
    }
    (taken, kept)
}

/// The frame ends the stream (RFC 9113 sections 6.1 and 6.2).
pub(crate) fn ends(stream: u32, head: Head) -> bool
    ensures { result ≡ ends stream head }
{
    (head.kind == DATA || head.kind == HEADERS)
        && head.stream == stream
        && head.flags & END_STREAM_FLAG != 0
}

/// One of the frames from a place on ends the stream.
pub(crate) fn any_ends(bytes: &[u8], from: usize, stream: u32) -> bool
    requires order { from ≤ length bytes.now }
    requires whole { AreWhole (drop from bytes.now) }
    ensures { result ≡ list_any (frame_ends stream) (frames_of (drop from bytes.now)) }
{
    let mut at = from;
    while at < bytes.len() {
        let next = frame_at(bytes, at);
        if ends(stream, next.head) {
            return true;
        }
        at += HEADER + next.size as usize;
    }
    false
}

/// The first DATA frame with payload from a place on.
pub(crate) fn first_data(bytes: &[u8], from: usize) -> Option<Unbegun>
    requires order { from ≤ length bytes.now }
    requires whole { AreWhole (drop from bytes.now) }
    ensures { result ≡ first_data (frames_of (drop from bytes.now)) }
{
    let mut at = from;
    while at < bytes.len() {
        let next = frame_at(bytes, at);
        if next.head.kind == DATA && next.size != 0 {
            return Some(Unbegun {
                stream: next.head.stream,
                size: next.size,
            });
        }
        at += HEADER + next.size as usize;
    }
    None
}

/// A DATA frame with payload waits, or it is put.
pub(crate) fn waits_with(waits: bool, kind: u8, size: usize) -> bool
    ensures { result ≡ (waits || (kind == data_kind && not (size == 0))) }
{
    waits || (kind == DATA && size != 0)
}

/// From where on DATA waits, once a frame is put at the end.
pub(crate) fn from_with(from: usize, count: usize, end: usize) -> usize
    ensures { result ≡ (if count == 0 then end else from) }
{
    if count == 0 { end } else { from }
}

/// A DATA frame with payload still waits from a place on.
pub(crate) fn still_waits(waits: bool, bytes: &[u8], from: usize) -> bool
    requires order { from ≤ length bytes.now }
    requires whole { AreWhole (drop from bytes.now) }
    ensures { result ≡ (waits && is_some (first_data (frames_of (drop from bytes.now)))) }
{
    waits && first_data(bytes, from).is_some()
}
