//! Bytes that wait, up to a bound.

ghost use Rattle.std.specs.Prelude.{◌≡◌, ◌<◌, ◌≤◌, ◌+◌, ◌==◌, ◌++◌, [], not, length, take, drop, nat_le, IfOk};
ghost use Rattle.std.specs.List.{suffix_len};
ghost use Rattle.hb_line_audit.specs.Lines.{room, most, whole_lines, portion};

use hb_base::NoMemory;
use std::alloc::Global;
use std::marker::Model;

/// How many bytes may wait.
const ROOM: usize = 262_144;

/// The most bytes of one put: so many a pipe takes in one piece.
const MOST: usize = 4096;

/// Bytes that wait, in order. Contracts see those that are left. `new` takes the memory; no other call takes any.
#[derive(Drop)]
pub(crate) struct Backlog {
    bytes: Vec<u8>,
    /// How many of them are gone.
    gone: usize,
}

impl Model for Backlog {
    ghost use Rattle.std.specs.Prelude.{List, ℕ, ◌≤◌, length, drop, vec_capacity};
    ghost use Rattle.hb_line_audit.specs.Lines.{room};

    ghost Value = { List ℕ };

    ghost view = { λ b. drop b.gone b.bytes.items };

    ghost invariant = { λ b. (b.gone ≤ length b.bytes.items) × (length b.bytes.items ≤ room) × (room ≤ vec_capacity b.bytes) };
}

impl Backlog {
    /// No byte waits.
    ///
    /// Errors: `NoMemory`.
    pub fn new(alloc: Global) -> Result<Backlog, NoMemory>
        ensures { IfOk result (λ backlog. backlog ≡ []) }
    {
        let bytes = Vec::with_capacity(alloc, ROOM)?;
        Ok(Backlog { bytes, gone: 0 })
    }

    /// The bytes that wait.
    pub fn as_slice(&self) -> &[u8]
        ensures bytes { result.now ≡ self.now }
        ensures within { length self.now ≤ room }
    {
        &self.bytes[self.gone..]
    }

    /// Whether there is room for so many bytes more.
    pub fn has_room(&self, count: usize) -> bool
        ensures { result ≡ nat_le (length self.now + count) room }
    {
        count <= ROOM - (self.bytes.len() - self.gone)
    }

    /// Adds bytes for which there is room.
    pub fn add(&mut self, bytes: &[u8])
        requires { length self.old + length bytes.now ≤ room }
        ensures { self.new ≡ self.old ++ bytes.now }
    {
        if bytes.len() > ROOM - self.bytes.len() {
            self.bytes.drain(..self.gone);
            self.gone = 0;
        }
        match self.bytes.extend_from_slice(bytes) {
            Ok(()) => {}
            Err(_) => unreachable!(),
        }
    }

    /// Removes the first `count` bytes.
    pub fn remove(&mut self, count: usize)
        requires { count ≤ length self.old }
        ensures { self.new ≡ drop count self.old }
    {
        self.gone += count;
        if self.gone == self.bytes.len() {
            self.bytes.clear();
            self.gone = 0;
        }
    }
}

/// How many bytes stand in whole lines at the front.
fn whole_lines(bytes: &[u8]) -> usize
    ensures lines { result ≡ whole_lines bytes.now }
    ensures within { result ≤ length bytes.now }
{
    let mut end = bytes.len();
    while end > 0 {
        if bytes[end - 1] == b'\n' {
            return end;
        }
        end -= 1;
    }
    0
}

/// How many bytes from the front go in one put: whole lines, of which one ends within the most that may go; else the most.
pub(crate) fn portion(bytes: &[u8]) -> usize
    ensures portion { result ≡ portion bytes.now }
    ensures within { result ≤ length bytes.now }
    ensures most { result ≤ most }
    ensures some { 0 < length bytes.now → 0 < result }
{
    if bytes.len() <= MOST {
        return bytes.len();
    }
    match whole_lines(&bytes[..MOST]) {
        0 => MOST,
        end => end,
    }
}
