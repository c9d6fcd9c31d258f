//! The octets and frames that wait to be written.

ghost use Rattle.std.specs.Prelude.{◌≡◌, ◌+◌, ◌≤◌, ◌==◌, length, Some, IfOk};
ghost use Rattle.hb_frames.specs.Numbers.{largest};
ghost use Rattle.hb_outgoing.specs.Waiting.{octets_of, room_of, nothing, opened, put, size};
ghost use Rattle.hb_outgoing.specs.Written.{written};
ghost use Rattle.hb_outgoing.specs.Selected.{without, taken_back, all_taken_back, data_size, first_data, data_begun, end_waits};

use crate::data_streams::DataStreams;
use crate::head::Head;
use crate::queue::{
    any_ends, begin, count_of, ends, first_data, from_with, still_waits, take_data, waits_with,
    while_waits,
};
use crate::unbegun::Unbegun;
use hb_base::NoMemory;
use hb_frames::Output;
use hb_frames::numbers::DATA;
use std::alloc::Global;
use std::marker::Model;

/// How many octets can wait.
const SIZE: usize = 65_536;

/// The octets of a frame's header, for which the output has room beside.
const HEADER: usize = 9;

/// What waits to be written on one connection: at most 65,536 octets. It takes its memory when it is made.
#[derive(Drop)]
pub struct Outgoing {
    output: Output,
    /// How many octets in front are left of what was begun.
    rest: usize,
    begun: Option<Head>,
    /// Not set: no DATA frame with payload waits of which no octet was written.
    data_waits: bool,
    /// How many DATA frames wait of which no octet was written.
    count: usize,
    /// In front of this place none of them stands.
    from: usize,
    /// The streams of which they may be.
    streams: DataStreams,
}

impl Model for Outgoing {
    ghost use Rattle.std.specs.Prelude.{◌≡◌, ◌≤◌, length, take, drop};
    ghost use Rattle.hb_outgoing.specs.Waiting.{Waiting};
    ghost use Rattle.hb_outgoing.specs.Queue.{frames_of, AreWhole};
    ghost use Rattle.hb_outgoing.specs.Known.{KnowsData, NoDataBefore};

    ghost Value = { Waiting };

    ghost view = { λ o. record {
      rest = take o.rest o.output.items;
      begun = o.begun;
      queue = frames_of (drop o.rest o.output.items);
    } };

    ghost invariant = { λ o.
        (o.output.size ≡ 65545) × (length o.output.items ≤ 65536) × (o.rest ≤ length o.output.items)
        × AreWhole (drop o.rest o.output.items)
        × KnowsData o.data_waits o.count o.streams (frames_of (drop o.rest o.output.items))
        × NoDataBefore o.output.items o.rest o.from };
}

impl Outgoing {
    /// Nothing waits.
    ///
    /// Errors: `NoMemory`.
    pub fn new(alloc: Global) -> Result<Outgoing, NoMemory>
        ensures { IfOk result (λ o. o ≡ nothing) }
    {
        let output = Output::new(alloc, SIZE + HEADER)?;
        let streams = DataStreams::new(alloc)?;
        Ok(Outgoing {
            output,
            rest: 0,
            begun: None,
            data_waits: false,
            count: 0,
            from: 0,
            streams,
        })
    }

    /// How many octets more can wait.
    pub fn room(&self) -> usize
        ensures value { result ≡ room_of self.now }
        ensures fits { length (octets_of self.now) ≤ size }
    {
        self.output.room() - HEADER
    }

    /// All octets that wait, in order.
    pub fn front(&self) -> &[u8]
        ensures { result.now ≡ octets_of self.now }
    {
        self.output.front()
    }

    /// Nothing waits.
    pub fn is_empty(&self) -> bool
        ensures { result ≡ (length (octets_of self.now) == 0) }
    {
        self.output.front().is_empty()
    }

    /// Puts what a connection begins with, as a client's preface (RFC 9113 section 3.4), which is no frame.
    pub fn put_opening(&mut self, bytes: &[u8])
        requires empty { length (octets_of self.old) ≡ 0 }
        requires room { length bytes.now ≤ size }
        ensures { self.new ≡ opened bytes.now }
    {
        // as the payload of a frame whose header is left out
        self.output.put_frame(0, 0, 0, bytes);
        self.output.drop_front(HEADER);
        self.rest = bytes.len();
        self.begun = None;
        self.count = 0;
        self.from = bytes.len();
    }

    /// Puts a frame behind all others (RFC 9113 section 4.1), its reserved bit unset.
    pub fn put_frame(&mut self, kind: u8, flags: u8, stream: u32, payload: &[u8])
        requires room { length (octets_of self.old) + (9 + length payload.now) ≤ size }
        requires in_range { stream ≤ largest }
        ensures after { self.new
            ≡ put (record { kind = kind; flags = flags; stream = stream; payload = payload.now }) self.old }
        ensures grows { length (octets_of self.new) ≡ length (octets_of self.old) + (9 + length payload.now) }
    {
        self.from = from_with(self.from, self.count, self.output.front().len());
        self.output.put_frame(kind, flags, stream, payload);
        self.data_waits = waits_with(self.data_waits, kind, payload.len());
        self.streams.forget(self.count);
        self.streams.note(kind, stream);
        self.count += count_of(kind);
    }

    /// Removes the first `n` octets, which were written. A frame whose first octet is among them has begun.
    pub fn wrote(&mut self, n: usize)
        requires { n ≤ length (octets_of self.old) }
        ensures { self.new ≡ written n self.old }
    {
        let (end, head, begun) = begin(self.output.front(), self.rest, self.begun, n);
        self.output.drop_front(n);
        self.rest = end - n;
        self.from = self.from.max(end) - n;
        self.count -= begun;
        self.begun = while_waits(self.rest, head);
        self.look_for_data();
    }

    /// Takes the stream's DATA frames back of which no octet was written, and says how many octets of payload
    /// they had, which its window gets back (RFC 9113 section 6.9).
    pub fn take_back(&mut self, stream: u32) -> u32
        ensures value { result ≡ data_size (Some stream) self.old.queue }
        ensures left { self.new ≡ taken_back stream self.old }
        ensures shorter { length (octets_of self.new) ≤ length (octets_of self.old) }
    {
        if !self.streams.may_be(stream) {
            return 0;
        }
        self.take(Some(stream))
    }

    /// Takes all DATA frames back of which no octet was written.
    pub fn take_back_all(&mut self)
        ensures left { self.new ≡ all_taken_back self.old }
        ensures shorter { length (octets_of self.new) ≤ length (octets_of self.old) }
    {
        self.take(None);
    }

    /// Takes the stream's DATA frames back of which no octet was written, None: those of all streams.
    fn take(&mut self, stream: Option<u32>) -> u32
        ensures value { result ≡ data_size stream self.old.queue }
        ensures left { self.new ≡ without stream self.old }
    {
        let (taken, left) = take_data(&mut self.output, self.from, self.count, stream);
        self.count = left;
        self.look_for_data();
        taken
    }

    /// Looks whether DATA with payload still waits.
    fn look_for_data(&mut self)
        ensures { self.new ≡ self.old }
    {
        self.data_waits = still_waits(self.data_waits, self.output.front(), self.rest);
    }

    /// The first DATA frame with payload of which no octet was written. `None` where no such frame waits.
    pub fn unbegun(&self) -> Option<Unbegun>
        ensures { result ≡ first_data self.now.queue }
    {
        if !self.data_waits {
            return None;
        }
        first_data(self.output.front(), self.rest)
    }

    /// Of a DATA frame of the stream octets were written, and octets wait.
    pub fn data_begun(&self, stream: u32) -> bool
        ensures { result ≡ data_begun stream self.now.begun }
    {
        match self.begun {
            None => false,
            Some(head) => head.kind == DATA && head.stream == stream,
        }
    }

    /// An octet of a DATA or HEADERS frame waits that ends the stream (END_STREAM; RFC 9113 section 5.1).
    pub fn end_waits(&self, stream: u32) -> bool
        ensures { result ≡ end_waits stream self.now }
    {
        let begun = match self.begun {
            None => false,
            Some(head) => ends(stream, head),
        };
        begun || any_ends(self.output.front(), self.rest, stream)
    }
}
