//! Where the bytes of a link are to go.

ghost use Rattle.std.specs.Prelude.{◌≡◌, IfOk};
ghost use Rattle.std.specs.Option.{option_map};
ghost use Rattle.hb_captured.specs.Answer.{address_of, domain_of, endpoint_of, key_for, why_for};
ghost use Rattle.hb_gateway.specs.Keys.{key_as};
ghost use Rattle.hb_relay.specs.Answering.{aim_as, through_of, wanted_as};

use hb_base::{Door, Identity, Ip, NoMemory, Target, Text, Why};
use hb_front::may_be_sent;
use hb_gateway::Key;
use hb_held::Held;
use hb_records::Workload;
use std::alloc::Global;

/// The trust domain of a workload: `cluster.local` where it names none.
///
/// Errors: `NoMemory`.
fn trust_domain_of(alloc: Global, workload: &Workload) -> Result<Text, NoMemory>
    ensures { IfOk result (λ domain. domain ≡ domain_of workload.now.trust_domain) }
{
    if !workload.trust_domain.as_slice().is_empty() {
        return workload.trust_domain.copy(alloc);
    }
    Text::of_str(alloc, "cluster.local")
}

/// The key of the link to a gateway that a source takes, by the workload of this node that it is.
///
/// Errors: `NoMemory`.
pub(crate) fn key_for(
    alloc: Global,
    held: &Held,
    source: Ip,
    gateway: Target,
) -> Result<Key, NoMemory>
    ensures { IfOk result (λ key. key_as key ≡ key_for held.now source gateway) }
{
    let Some(found) = held.known(source) else {
        return Ok(Key {
            identity: None,
            source,
            gateway,
        });
    };
    let identity = Identity {
        trust_domain: trust_domain_of(alloc, found.workload)?,
        namespace: found.workload.namespace.copy(alloc)?,
        service_account: found.workload.service_account.copy(alloc)?,
    };
    let identity = if may_be_sent(&identity) {
        Some(identity)
    } else {
        None
    };
    Ok(Key {
        identity,
        source,
        gateway,
    })
}

/// Where the bytes of a link are to go.
#[derive(Drop)]
pub enum Aim {
    /// Straight to an address, which is dialled for it; of an endpoint of this name, where one is known.
    Straight {
        to: Target,
        endpoint: Option<Text>,
    },
    /// Over a stream of a link of this key, which is asked for this authority; to the endpoint of this name.
    Through {
        key: Key,
        authority: Target,
        endpoint: Text,
    },
}

impl Aim {
    /// The address that is dialled.
    pub fn address(&self) -> Target
        ensures { result ≡ address_of (aim_as self.now) }
    {
        match self {
            Aim::Straight { to, .. } => *to,
            Aim::Through { key, .. } => key.gateway,
        }
    }

    /// For whom a stream is to be asked for, and for which authority. `None` where none is.
    pub fn through(&self) -> Option<(&Key, Target)>
        ensures { wanted_as (option_map (λ at. (at.0.now, at.1)) result) ≡ through_of (aim_as self.now) }
    {
        match self {
            Aim::Straight { .. } => None,
            Aim::Through { key, authority, .. } => Some((key, *authority)),
        }
    }

    /// The endpoint to which it is a connection. `None` where none is known.
    pub fn endpoint(&self) -> Option<&Text>
        ensures { option_map (λ name. name.now) result ≡ endpoint_of (aim_as self.now) }
    {
        match self {
            Aim::Straight {
                endpoint: Some(name),
                ..
            } => Some(name),
            Aim::Straight { .. } => None,
            Aim::Through { endpoint, .. } => Some(endpoint),
        }
    }

    /// Why a link is dialled for the link of this number.
    pub fn why(&self, door: Door, link: u64) -> Why
        ensures { result ≡ why_for (aim_as self.now) door link }
    {
        match self {
            Aim::Through { .. } => Why::Gateway { link },
            Aim::Straight { .. } => match door {
                Door::Outbound => Why::Direct { link },
                _ => Why::Plain { link },
            },
        }
    }
}
