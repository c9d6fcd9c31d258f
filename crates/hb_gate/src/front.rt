//! The front header that a link writes.

ghost use Rattle.std.specs.Prelude.{◌≡◌, ◌≤◌, length, drop, IfOk};
ghost use Rattle.hb_gateway.specs.Key.{front_of};
ghost use Rattle.hb_gateway.specs.Keys.{key_as};
ghost use Rattle.hb_gate.specs.Keyed.{IsWritable};

use hb_base::{NoMemory, Target};
use hb_front::put_front;
use hb_gateway::Key;
use std::alloc::Global;
use std::marker::Model;

/// The bytes of a front header that aren't written. Contracts see them.
#[derive(Drop)]
pub(crate) struct Front {
    bytes: Vec<u8>,
    went: usize,
}

impl Model for Front {
    ghost use Rattle.std.specs.Prelude.{◌≤◌, List, ℕ, length, drop};

    ghost Value = { List ℕ };

    ghost view = { λ f. drop f.went f.bytes.items };

    ghost invariant = { λ f. f.went ≤ length f.bytes.items };
}

impl Front {
    /// That of a key: from its source, of no port, to its gateway.
    ///
    /// Errors: `NoMemory`.
    pub fn of(alloc: Global, key: &Key) -> Result<Front, NoMemory>
        requires { IsWritable key.now }
        ensures { IfOk result (λ f. f ≡ front_of (key_as key.now)) }
    {
        let source = Target {
            ip: key.source,
            port: 0,
        };
        let mut bytes = Vec::new(alloc);
        put_front(
            alloc,
            source,
            key.gateway,
            key.identity.as_ref(),
            &mut bytes,
        )?;
        Ok(Front { bytes, went: 0 })
    }

    /// The bytes that aren't written.
    pub fn bytes(&self) -> &[u8]
        ensures { result.now ≡ self.now }
    {
        &self.bytes[self.went..]
    }

    /// The first `n` of them were written.
    pub fn took(&mut self, n: usize)
        requires { n ≤ length self.old }
        ensures { self.new ≡ drop n self.old }
    {
        self.went += n;
    }
}
