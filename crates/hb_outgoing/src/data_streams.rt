//! The streams of which DATA may wait.

ghost use Rattle.std.specs.Prelude.{◌≡◌, ◌≤◌, ◌<◌, ℕ, IfOk, IfSome, true, false};
ghost use Rattle.hb_frames.specs.Numbers.{data_kind};
ghost use Rattle.hb_outgoing.specs.Streams.{no_streams, may_be};

use circular_buffer::HeapCircularBuffer;
use hb_base::NoMemory;
use hb_frames::numbers::DATA;
use std::alloc::Global;
use std::marker::Model;

/// How many streams are kept.
const MOST: usize = 128;

/// The streams of which DATA was put since none waited: the last 128 of them, and the greatest of all others.
#[derive(Drop)]
pub(crate) struct DataStreams {
    last: HeapCircularBuffer<u32>,
    /// No stream that isn't among the last ones is greater.
    before: u32,
}

impl Model for DataStreams {
    ghost use Rattle.std.specs.Prelude.{◌≡◌, ◌≤◌, length};
    ghost use Rattle.hb_outgoing.specs.Streams.{Streams, most_streams};

    ghost Value = { Streams };

    ghost view = { λ s. record { last = s.last.items; before = s.before } };

    ghost invariant = { λ s. (s.last.capacity ≡ most_streams) × (length s.last.items ≤ most_streams) };
}

impl DataStreams {
    /// No streams. Takes the memory for all that may be kept.
    ///
    /// Errors: `NoMemory`.
    pub fn new(alloc: Global) -> Result<DataStreams, NoMemory>
        ensures { IfOk result (λ s. s ≡ no_streams) }
    {
        let last = HeapCircularBuffer::with_capacity(alloc, MOST)?;
        Ok(DataStreams { last, before: 0 })
    }

    /// False: the stream isn't one of them.
    pub fn may_be(&self, stream: u32) -> bool
        ensures { result ≡ may_be self.now stream }
    {
        let (front, back) = self.last.as_slices();
        let in_front = front.contains(&stream);
        let in_back = back.contains(&stream);
        stream <= self.before || in_front || in_back
    }

    /// Forgets all streams where no DATA frame waits.
    pub fn forget(&mut self, count: usize)
        ensures none { count ≡ 0 → self.new ≡ no_streams }
        ensures stays { 0 < count → self.new ≡ self.old }
    {
        if count == 0 {
            self.last.clear();
            self.before = 0;
        }
    }

    /// Notes the stream of a frame, where it is DATA.
    pub fn note(&mut self, kind: u8, stream: u32)
        ensures stays { (n : ℕ) → may_be self.new n ≡ false → may_be self.old n ≡ false }
        ensures noted { kind ≡ data_kind → may_be self.new stream ≡ true }
        ensures others { (kind ≡ data_kind → ⊥) → self.new ≡ self.old }
    {
        if kind == DATA && !self.may_be(stream) {
            self.add(stream);
        }
    }

    /// Adds a stream. The first of 128 goes.
    fn add(&mut self, stream: u32)
        ensures stays { (n : ℕ) → may_be self.new n ≡ false → may_be self.old n ≡ false }
        ensures noted { may_be self.new stream ≡ true }
    {
        let gone = self.last.push_back(stream);
        self.before = greatest(self.before, gone);
    }
}

fn greatest(before: u32, gone: Option<u32>) -> u32
    ensures before { before ≤ result }
    ensures gone { IfSome gone (λ stream. stream ≤ result) }
{
    match gone {
        None => before,
        Some(stream) => before.max(stream),
    }
}
