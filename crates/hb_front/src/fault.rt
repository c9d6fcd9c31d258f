//! Why bytes aren't a header.

ghost use Rattle.std.specs.Prelude.{◌≡◌};
ghost use Rattle.hb_front.specs.Faults.{number_of};

use thiserror::Error;

/// Why bytes can't be the front of a header. They are looked for in this order; the last two show only once the
/// header is whole, but for a length that has no room for the addresses.
#[derive(Clone, Copy, Debug, PartialEq, Eq, Error)]
pub enum FrontFault {
    /// One of the first 12 bytes isn't that of the signature.
    #[error("not the signature of a PROXY header")]
    BadSignature,
    /// Byte 12 isn't 21: version 2, command PROXY.
    #[error("not version 2 with command PROXY")]
    BadVersion,
    /// Byte 13 is neither 11 nor 21: TCP over IPv4 or over IPv6.
    #[error("neither TCP over IPv4 nor TCP over IPv6")]
    BadFamily,
    /// The length is above 4,096.
    #[error("a header longer than 4,096 bytes")]
    TooLong,
    /// The length has no room for the addresses and ports, or a type-length-value passes the end of the header.
    #[error("a part passes the end of the header")]
    BadLength,
    /// The type-length-value of the identity stands twice, or its value isn't the text of an identity.
    #[error("not one identity")]
    BadIdentity,
}

impl FrontFault {
    /// The number by which the fault is reported.
    pub fn number(self) -> u32
        ensures { result ≡ number_of self }
    {
        match self {
            FrontFault::BadSignature => 1,
            FrontFault::BadVersion => 2,
            FrontFault::BadFamily => 3,
            FrontFault::BadLength => 4,
            FrontFault::BadIdentity => 5,
            FrontFault::TooLong => 6,
        }
    }
}
