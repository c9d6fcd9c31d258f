//! Bytes that wait to be sent.

ghost use Rattle.std.specs.Prelude.{◌≡◌, ◌≤◌, ◌++◌, [], length, drop, OnOk};
ghost use Rattle.hb_grpc.specs.Message.{spelling};

use hb_base::NoMemory;
use hb_grpc::put_message;
use std::alloc::{AllocError, Global};
use std::marker::Model;

/// Bytes that wait, in order. Contracts see those that are left.
#[derive(Drop)]
pub(crate) struct Queue {
    bytes: Vec<u8>,
    /// How many of them are gone.
    gone: usize,
}

impl Model for Queue {
    ghost use Rattle.std.specs.Prelude.{List, ℕ, ◌≤◌, length, drop};

    ghost Value = { List ℕ };

    ghost view = { λ q. drop q.gone q.bytes.items };

    ghost invariant = { λ q. q.gone ≤ length q.bytes.items };
}

impl Queue {
    /// No byte waits.
    pub fn new(alloc: Global) -> Queue
        ensures { result ≡ [] }
    {
        Queue {
            bytes: Vec::new(alloc),
            gone: 0,
        }
    }

    /// The bytes that are left.
    pub fn front(&self) -> &[u8]
        ensures { result.now ≡ self.now }
    {
        &self.bytes[self.gone..]
    }

    /// Adds a message of gRPC.
    ///
    /// Errors: `NoMemory`, also where the message's length has no 32 bits, after which the queue isn't used again.
    pub fn add(&mut self, alloc: Global, message: &[u8]) -> Result<(), NoMemory>
        ensures { OnOk result (self.new ≡ self.old ++ spelling message.now) }
    {
        if message.len() > u32::MAX as usize {
            return Err(AllocError);
        }
        put_message(alloc, message, &mut self.bytes)
    }

    /// Removes the first `n` bytes. What is gone is given up once it is more than what is left, so that all removals
    /// together move no byte twice as often as it is added.
    pub fn remove(&mut self, n: usize)
        requires { n ≤ length self.old }
        ensures { self.new ≡ drop n self.old }
    {
        self.gone += n;
        if self.gone > self.bytes.len() - self.gone {
            self.bytes.drain(..self.gone);
            self.gone = 0;
        }
    }
}
