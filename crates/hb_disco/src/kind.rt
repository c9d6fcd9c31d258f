//! The kinds of resources.

ghost use Rattle.std.specs.Prelude.{◌≡◌};
ghost use Rattle.hb_disco.specs.Kind.{type_url};

/// A kind of resources: addresses, or authorization policies.
#[derive(Clone, Copy)]
pub enum Kind {
    Address,
    Authorization,
}

const ADDRESS_URL: &[u8] = b"type.googleapis.com/istio.workload.Address";

const AUTHORIZATION_URL: &[u8] = b"type.googleapis.com/istio.security.Authorization";

impl Kind {
    /// The type URL of this kind's resources.
    pub fn type_url(self) -> &'static [u8]
        ensures { result.now ≡ type_url self }
    {
        match self {
            Kind::Address => ADDRESS_URL,
            Kind::Authorization => AUTHORIZATION_URL,
        }
    }
}
