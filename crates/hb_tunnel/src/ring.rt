//! One way of a tunnel.

ghost use Rattle.std.specs.Prelude.{◌≡◌, ◌+◌, ◌≤◌, length, IfOk, IsFalse};
ghost use Rattle.hb_tunnel.specs.Way.{empty_way, pushes, takes, ends, after, is_done};

use hb_base::NoMemory;
use hb_buffer::Buffer;
use std::alloc::Global;
use std::marker::Model;

/// The bytes that wait on one way, and whether it has ended. `new` takes its memory; no other call takes any.
#[derive(Drop)]
pub struct Ring {
    pub(crate) bytes: Buffer,
    pub(crate) has_ended: bool,
}

impl Model for Ring {
    ghost use Rattle.hb_tunnel.specs.Way.{Sized};

    ghost Value = { Sized };

    ghost view = { λ r. record {
      size = r.bytes.size;
      way = record { held = r.bytes.items; has_ended = r.has_ended };
    } };
}

impl Ring {
    /// An empty ring of `size` bytes.
    ///
    /// Errors: `NoMemory`.
    pub fn new(alloc: Global, size: usize) -> Result<Ring, NoMemory>
        ensures { IfOk result (λ ring. ring ≡ record { size = size; way = empty_way }) }
    {
        let bytes = Buffer::new(alloc, size)?;
        Ok(Ring {
            bytes,
            has_ended: false,
        })
    }

    /// How many more bytes fit.
    pub fn room(&self) -> usize
        ensures { result + length self.now.way.held ≡ self.now.size }
    {
        self.bytes.room()
    }

    /// The way has ended: no further byte comes.
    pub fn has_ended(&self) -> bool
        ensures { result ≡ self.now.way.has_ended }
    {
        self.has_ended
    }

    /// Appends bytes, each of which is copied once.
    pub fn push(&mut self, bytes: &[u8])
        requires fits { length self.old.way.held + length bytes.now ≤ self.old.size }
        requires goes_on { IsFalse self.old.way.has_ended }
        ensures { self.new ≡ record self.old { way = after self.old.way (pushes bytes.now) } }
    {
        self.bytes.append(bytes);
    }

    /// The bytes that wait, in order.
    pub fn held(&self) -> &[u8]
        ensures { result.now ≡ self.now.way.held }
    {
        self.bytes.as_slice()
    }

    /// Takes the first `count` bytes away.
    pub fn take(&mut self, count: usize)
        requires { count ≤ length self.old.way.held }
        ensures { self.new ≡ record self.old { way = after self.old.way (takes count) } }
    {
        self.bytes.drop_front(count);
    }

    /// No further byte comes.
    pub fn end(&mut self)
        ensures { self.new ≡ record self.old { way = after self.old.way ends } }
    {
        self.has_ended = true;
    }

    /// The way has ended, and no byte waits.
    pub fn is_done(&self) -> bool
        ensures { result ≡ is_done self.now.way }
    {
        self.has_ended && self.bytes.as_slice().is_empty()
    }
}
