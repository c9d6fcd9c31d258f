//! For whom a link to a gateway is.

ghost use Rattle.std.specs.Prelude.{◌≡◌, ◌↔◌, IsTrue, IfOk};
ghost use Rattle.hb_gateway.specs.Keys.{key_as};

use hb_base::{Identity, Ip, NoMemory, Target};
use std::alloc::Global;

/// For whom a link to a gateway is: links are shared by connections of one identity and one source address to one gateway.
#[derive(Drop)]
pub struct Key {
    /// Who the source is, where that can be written.
    pub identity: Option<Identity>,
    pub source: Ip,
    /// The address that is dialled.
    pub gateway: Target,
}

/// Two identities are equal.
fn same_identity(one: &Identity, other: &Identity) -> bool
    ensures { IsTrue result ↔ (one.now ≡ other.now) }
{
    one.trust_domain == other.trust_domain
        && one.namespace == other.namespace
        && one.service_account == other.service_account
}

/// So are two that may lack.
fn same_identities(one: &Option<Identity>, other: &Option<Identity>) -> bool
    ensures { IsTrue result ↔ (one.now ≡ other.now) }
{
    match (one, other) {
        (Some(one), Some(other)) => same_identity(one, other),
        (None, None) => true,
        _ => false,
    }
}

impl Key {
    /// The same key, in memory of its own.
    ///
    /// Errors: `NoMemory`.
    pub fn copy(&self, alloc: Global) -> Result<Key, NoMemory>
        ensures { IfOk result (λ key. key_as key ≡ key_as self.now) }
    {
        let identity = match &self.identity {
            Some(identity) => Some(identity.copy(alloc)?),
            None => None,
        };
        Ok(Key {
            identity,
            source: self.source,
            gateway: self.gateway,
        })
    }

    /// Whether two are equal.
    pub fn is(&self, other: &Key) -> bool
        ensures { IsTrue result ↔ (key_as self.now ≡ key_as other.now) }
    {
        self.source == other.source
            && self.gateway.ip == other.gateway.ip
            && self.gateway.port == other.gateway.port
            && same_identities(&self.identity, &other.identity)
    }
}
