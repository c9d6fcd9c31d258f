//! Who speaks.

ghost use Rattle.std.specs.Prelude.{◌≡◌, IfOk};

use crate::identity::Identity;
use crate::ip::Ip;
use crate::or::NoMemory;
use std::alloc::Global;

/// The other end of a connection: its address and, where it proved one, its identity.
#[derive(Drop)]
pub struct Peer {
    pub ip: Ip,
    pub identity: Option<Identity>,
}

impl Peer {
    /// The same peer, in memory of its own.
    ///
    /// Errors: `NoMemory`.
    pub fn copy(&self, alloc: Global) -> Result<Peer, NoMemory>
        ensures { IfOk result (λ r. r ≡ self.now) }
    {
        let identity = match &self.identity {
            None => None,
            Some(identity) => Some(identity.copy(alloc)?),
        };
        Ok(Peer {
            ip: self.ip,
            identity,
        })
    }
}
