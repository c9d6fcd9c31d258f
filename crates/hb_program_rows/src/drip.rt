//! A sink that takes one byte at a time.

use hb_base::{Put, Sink};
use std::alloc::Global;

/// Takes the first byte of each put, until it has `room` of them; then it fails.
#[derive(Drop)]
pub struct Drip {
    bytes: Vec<u8>,
    room: usize,
    faults: u64,
}

impl Drip {
    pub fn new(alloc: Global, room: usize) -> Drip {
        Drip {
            bytes: Vec::new(alloc),
            room,
            faults: 0,
        }
    }

    pub fn as_slice(&self) -> &[u8] {
        self.bytes.as_slice()
    }
}

impl Sink for Drip {
    ghost use Rattle.std.specs.Prelude.{Some};

    ghost written = { λ s. Some s.bytes.items };

    ghost faults = { λ s. s.faults };

    fn put(&mut self, from: &[u8]) -> Put {
        if self.bytes.len() < self.room && self.bytes.push(from[0]).is_ok() {
            return Put::Took(1);
        }
        self.faults = self.faults.saturating_add(1);
        Put::Failed
    }
}
