//! Frames out of a stream of bytes.

ghost use Rattle.std.specs.Prelude.{◌≡◌, ◌+◌, ◌<◌, ◌≤◌, [], length, min, slice_range, IfOk, IfSome, IfNone};
ghost use Rattle.std.specs.Borrow.{sem};
ghost use Rattle.hb_frames.specs.RawFrame.{raw_at};
ghost use Rattle.hb_frames.specs.Bodies.{lent_of};
ghost use Rattle.hb_frames.specs.Reading.{StandsInFront};

use crate::fault::FrameFault;
use crate::frame::{Frame, first_frame, frame_at};
use crate::head::{HEADER, Head};
use crate::numbers::{CONTINUATION, SETTINGS};
use crate::refusal::{front_len, has_content, padding_len};
use hb_base::{NoMemory, Scope};
use hb_buffer::Buffer;
use std::alloc::Global;
use std::marker::Model;

/// Reads the frames of a stream of bytes that comes in any pieces. It takes its memory when it is made.
#[derive(Drop)]
pub struct FrameReader {
    buffer: Buffer,
    max: u32,
    at: u64,
    /// How many bytes in front of the buffer are the frame that was given last.
    given: usize,
    lent_start: usize,
    lent_end: usize,
}

impl Model for FrameReader {
    ghost use Rattle.std.specs.Prelude.{◌≡◌, ◌+◌, ◌≤◌, drop, length, slice_range};
    ghost use Rattle.hb_frames.specs.Reading.{Reading};

    ghost Value = { Reading };

    ghost view = { λ r. record {
      max = r.max;
      held = drop r.given r.buffer.items;
      at = r.at;
      last = slice_range r.buffer.items r.lent_start r.lent_end;
    } };

    ghost invariant = { λ r.
        (r.buffer.size ≡ r.max + 9) × (r.given ≤ length r.buffer.items)
        × (r.lent_start ≤ r.lent_end) × (r.lent_end ≤ length r.buffer.items) };
}

impl FrameReader {
    ghost use Rattle.hb_frames.specs.Reading.{Reading, space_of, fed, asked, Gives, GivesFirst, HasSize};
    ghost use Rattle.hb_frames.specs.Frames.{HasNoFrame};
    ghost use Rattle.hb_frames.specs.Loan.{EndsAsked};

    /// A reader of payloads of at most `max` octets.
    ///
    /// Errors: `NoMemory`.
    pub fn new(alloc: Global, max: u32) -> Result<FrameReader, NoMemory>
        ensures { IfOk result (λ r. r ≡ record { max = max; held = []; at = 0; last = [] }) }
    {
        let buffer = Buffer::new(alloc, max as usize + HEADER)?;
        Ok(FrameReader {
            buffer,
            max,
            at: 0,
            given: 0,
            lent_start: 0,
            lent_end: 0,
        })
    }

    /// How many octets more it takes: those of one frame of the longest payload, less those that it holds.
    pub fn space(&self) -> usize
        ensures value { result ≡ space_of self.now }
        ensures fits { length self.now.held ≤ self.now.max + 9 }
    {
        let held = self.buffer.as_slice().len() - self.given;
        self.max as usize + HEADER - held
    }

    /// Takes as many of the octets as there is space for, and says how many.
    pub fn feed(&mut self, b: &[u8]) -> usize
        ensures taken { result ≡ min (length b.now) (space_of self.old) }
        ensures after { self.new ≡ fed self.old b.now }
    {
        self.buffer.drop_front(self.given);
        self.given = 0;
        self.lent_start = 0;
        self.lent_end = 0;
        let taken = b.len().min(self.buffer.room());
        self.buffer.append(&b[..taken]);
        taken
    }

    /// The bytes of the Payload, Headers, Settings or Continuation body that the last `next_frame` gave; none where it
    /// gave no such body, and after a `feed`.
    pub fn last_bytes(&self) -> &[u8]
        ensures { result.now ≡ self.now.last }
    {
        &self.buffer.as_slice()[self.lent_start..self.lent_end]
    }

    /// The frame in front of the octets held, which then aren't held any more. `None` exactly where they have no
    /// whole frame and no fault.
    ///
    /// Errors: the first refusal that the frame in front can tell alone (RFC 9113 sections 4.2, 6 and 8.4), with its
    /// code and its place. It comes again at every later call.
    pub fn next_frame(&mut self) -> Result<Option<Frame<'_>>, FrameFault>
        ensures* after { sem 𝓛 (EndsAsked self.entry) }
        ensures value { Gives self.old result }
        ensures size { IfOk result (λ found. IfSome found (HasSize self.old)) }
        ensures first { IfOk result (λ found. IfSome found (GivesFirst self.old)) }
        ensures none { IfOk result (λ found. IfNone found (HasNoFrame self.old.held)) }
    {
        self.buffer.drop_front(self.given);
        self.given = 0;
        self.lent_start = 0;
        self.lent_end = 0;
        let found = match first_frame(self.buffer.as_slice(), self.max) {
            Ok(found) => found,
            Err(refusal) => {
                let held = self.buffer.as_slice();
                return Err(FrameFault {
                    code: refusal.code,
                    scope: Scope::Connection,
                    at: self.at,
                    row: refusal.row,
                    kind: held[3],
                    flags: held[4],
                });
            }
        };
        match found {
            None => Ok(None),
            Some(size) => {
                let (start, end) = lent_range(self.buffer.as_slice(), size);
                self.given = size;
                self.at = self.at.saturating_add(size as u64);
                self.lent_start = start;
                self.lent_end = end;
                Ok(Some(frame_at(self.buffer.as_slice(), size)))
            }
        }
    }
}

/// Where the bytes of a DATA, HEADERS, SETTINGS or CONTINUATION body stand.
fn lent_range(bytes: &[u8], size: usize) -> (usize, usize)
    requires { StandsInFront bytes.now size }
    ensures order { result.0 ≤ result.1 }
    ensures within { result.1 ≤ length bytes.now }
    ensures value { slice_range bytes.now result.0 result.1 ≡ lent_of (raw_at bytes.now) }
{
    let head = Head::of(bytes);
    if has_content(head) {
        let front = front_len(head);
        (
            HEADER + front,
            size - padding_len(head, &bytes[HEADER..size]),
        )
    } else if head.kind == SETTINGS || head.kind == CONTINUATION {
        (HEADER, size)
    } else {
        (0, 0)
    }
}
