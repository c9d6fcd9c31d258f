//! Frames on their way out.

ghost use Rattle.std.specs.Prelude.{◌≡◌, ◌+◌, ◌-◌, ◌≤◌, ◌++◌, [], length, take, drop, IfOk};
ghost use Rattle.hb_frames.specs.Numbers.{largest, largest_frame_size};
ghost use Rattle.hb_frames.specs.RawFrame.{spelling};

use crate::octets::word;
use hb_base::NoMemory;
use hb_buffer::Buffer;
use std::alloc::Global;
use std::marker::Model;

/// Bytes that wait to be written, at most as many as its size. It takes its memory when it is made.
#[derive(Drop)]
pub struct Output {
    buffer: Buffer,
}

impl Model for Output {
    ghost use Rattle.hb_buffer.specs.BoundedBytes.{BoundedBytes};

    ghost Value = { BoundedBytes };

    ghost view = { λ o. o.buffer };
}

impl Output {
    /// An empty output for `size` octets.
    ///
    /// Errors: `NoMemory`.
    pub fn new(alloc: Global, size: usize) -> Result<Output, NoMemory>
        ensures { IfOk result (λ o. o ≡ record { items = []; size = size }) }
    {
        let buffer = Buffer::new(alloc, size)?;
        Ok(Output { buffer })
    }

    /// How many octets more it takes.
    pub fn room(&self) -> usize
        ensures value { result ≡ self.now.size - length self.now.items }
        ensures fits { length self.now.items ≤ self.now.size }
    {
        self.buffer.room()
    }

    /// Appends a frame (RFC 9113 section 4.1), its reserved bit unset.
    pub fn put_frame(&mut self, kind: u8, flags: u8, stream: u32, payload: &[u8])
        requires room { length self.old.items + (9 + length payload.now) ≤ self.old.size }
        requires short { length payload.now ≤ largest_frame_size }
        requires in_range { stream ≤ largest }
        ensures { self.new ≡ record self.old {
          items = self.old.items
              ++ spelling (record { kind = kind; flags = flags; stream = stream; payload = payload.now });
        } }
    {
        let size = payload.len();
        let [first, second, third, fourth] = word(stream);
        let head = [
            (size / 0x1_0000) as u8,
            (size / 0x100 % 0x100) as u8,
            (size % 0x100) as u8,
            kind,
            flags,
            first,
            second,
            third,
            fourth,
        ];
        self.buffer.append(&head);
        self.buffer.append(payload);
    }

    /// All octets that wait, in order.
    pub fn front(&self) -> &[u8]
        ensures { result.now ≡ self.now.items }
    {
        self.buffer.as_slice()
    }

    /// Removes the first `n` octets, which were written.
    pub fn drop_front(&mut self, n: usize)
        requires { n ≤ length self.old.items }
        ensures { self.new ≡ record self.old { items = drop n self.old.items } }
    {
        self.buffer.drop_front(n);
    }

    /// Removes `n` octets from place `at`, and keeps all others in order.
    pub fn cut(&mut self, at: usize, n: usize)
        requires { at + n ≤ length self.old.items }
        ensures { self.new
            ≡ record self.old { items = take at self.old.items ++ drop (at + n) self.old.items } }
    {
        self.buffer.cut(at, n);
    }
}
