//! A straight buffer of a fixed size.

ghost use Rattle.std.specs.Prelude.{◌≡◌, ◌+◌, ◌-◌, ◌≤◌, ◌<◌, ◌++◌, [], length, take, drop, max, slice_range, vec_capacity, vec_len, IfOk};

use hb_base::NoMemory;
use std::alloc::Global;
use std::marker::Model;

/// Bytes that come in at the end and go out anywhere, at most as many as its size. Its memory, a quarter more than that, is taken when
/// it is made, and is touched only as far as bytes stood in it. Bytes that are held are moved once a quarter of the size has gone out.
#[derive(Drop)]
pub struct Buffer {
    /// What stands from `start` to `end` is held. What stands behind `end` went out.
    bytes: Vec<u8>,
    size: usize,
    start: usize,
    end: usize,
}

impl Model for Buffer {
    ghost use Rattle.std.specs.Prelude.{◌≤◌, ◌+◌, ◌/◌, vec_capacity, vec_len, slice_range};
    ghost use Rattle.hb_buffer.specs.BoundedBytes.{BoundedBytes};

    ghost Value = { BoundedBytes };

    ghost view = { λ b. record { items = slice_range b.bytes.items b.start b.end; size = b.size } };

    ghost invariant = { λ b.
        (b.start ≤ b.end) × (b.end ≤ vec_len b.bytes) × (b.end ≤ b.start + b.size)
        × (vec_len b.bytes ≤ b.size + b.size / 4) × (b.size + b.size / 4 ≤ vec_capacity b.bytes) };
}

impl Buffer {
    /// An empty buffer, with the memory for `size` bytes.
    ///
    /// Errors: `NoMemory`.
    pub fn new(alloc: Global, size: usize) -> Result<Buffer, NoMemory>
        ensures { IfOk result (λ b. b ≡ record { items = []; size = size }) }
    {
        let Some(whole) = size.checked_add(size / 4) else {
            return Err(NoMemory);
        };
        let bytes = Vec::with_capacity(alloc, whole)?;
        Ok(Buffer {
            bytes,
            size,
            start: 0,
            end: 0,
        })
    }

    /// How many bytes more it can hold.
    pub fn room(&self) -> usize
        ensures value { result ≡ self.now.size - length self.now.items }
        ensures fits { length self.now.items ≤ self.now.size }
    {
        self.size - (self.end - self.start)
    }

    /// The bytes that are held, in order.
    pub fn as_slice(&self) -> &[u8]
        ensures value { result.now ≡ self.now.items }
        ensures fits { length self.now.items ≤ self.now.size }
    {
        &self.bytes.as_slice()[self.start..self.end]
    }

    /// Adds these bytes at the end.
    pub fn append(&mut self, piece: &[u8])
        requires { length self.old.items + length piece.now ≤ self.old.size }
        ensures { self.new ≡ record self.old { items = self.old.items ++ piece.now } }
    {
        let held = self.end - self.start;
        if self.size + self.size / 4 - self.end < piece.len() {
            move_down(self.bytes.as_mut_slice(), self.start, held);
            self.start = 0;
            self.end = held;
        }
        put_over(&mut self.bytes, self.end, piece);
        self.end += piece.len();
    }

    /// Removes the first `n` bytes.
    pub fn drop_front(&mut self, n: usize)
        requires { n ≤ length self.old.items }
        ensures { self.new ≡ record self.old { items = drop n self.old.items } }
    {
        self.start += n;
        if self.start == self.end {
            self.start = 0;
            self.end = 0;
        }
    }

    /// Removes `n` bytes from place `at`.
    pub fn cut(&mut self, at: usize, n: usize)
        requires { at + n ≤ length self.old.items }
        ensures { self.new
            ≡ record self.old { items = take at self.old.items ++ drop (at + n) self.old.items } }
    {
        let to = self.start + at;
        self.bytes.as_mut_slice().copy_within(to + n..self.end, to);
        self.end -= n;
    }
}

/// Puts a piece at place `at`, over what stands there and behind it.
fn put_over(bytes: &mut Vec<u8>, at: usize, piece: &[u8])
    requires order { at ≤ vec_len bytes.old }
    requires fits { at + length piece.now ≤ vec_capacity bytes.old }
    ensures items { take (at + length piece.now) bytes.new.items ≡ take at bytes.old.items ++ piece.now }
    ensures reached { at + length piece.now ≤ vec_len bytes.new }
    ensures no_longer { vec_len bytes.new ≤ max (vec_len bytes.old) (at + length piece.now) }
    ensures capacity { vec_capacity bytes.old ≤ vec_capacity bytes.new }
{
    let known = bytes.len() - at;
    if piece.len() <= known {
        put(bytes.as_mut_slice(), at, piece);
        return;
    }
    let (over, behind) = piece.split_at(known);
    put(bytes.as_mut_slice(), at, over);
    match bytes.extend_from_slice(behind) {
        Ok(()) => {}
        Err(_) => unreachable!(),
    }
}

/// Puts a piece at place `at`, over as many bytes.
fn put(bytes: &mut [u8], at: usize, piece: &[u8])
    requires { at + length piece.now ≤ length bytes.old }
    ensures { bytes.new ≡ take at bytes.old ++ piece.now ++ drop (at + length piece.now) bytes.old }
{
    bytes[at..at + piece.len()].copy_from_slice(piece);
}

/// Moves the `n` bytes at place `from` to the front, in parts that don't overlap.
fn move_down(bytes: &mut [u8], from: usize, n: usize)
    requires moves { 0 < from }
    requires in_bounds { from + n ≤ length bytes.old }
    ensures value { take n bytes.new ≡ take n (drop from bytes.old) }
    ensures len { length bytes.new ≡ length bytes.old }
{
    let mut at = 0;
    while from < n - at {
        move_part(bytes, at, from, from);
        at += from;
    }
    move_part(bytes, at, from, n - at);
}

/// Moves `n` bytes down by `gap` to place `to`.
fn move_part(bytes: &mut [u8], to: usize, gap: usize, n: usize)
    requires apart { n ≤ gap }
    requires in_bounds { to + gap + n ≤ length bytes.old }
    ensures { bytes.new ≡ take to bytes.old ++ take n (drop (to + gap) bytes.old) ++ drop (to + n) bytes.old }
{
    let (front, back) = bytes.split_at_mut(to + gap);
    front[to..to + n].copy_from_slice(&back[..n]);
}
