//! Transport protocol and address family.

ghost use Rattle.std.specs.Prelude.{◌≡◌};
ghost use Rattle.hb_front.specs.Header.{family_byte as byte_of, address_len as octets_of, family_of};

/// TCP over IPv4 or over IPv6 (PROXY protocol section 2.2).
#[derive(Clone, Copy)]
pub(crate) enum Family {
    Inet,
    Inet6,
}

/// The byte of TCP over IPv4.
const INET: u8 = 0x11;

/// The byte of TCP over IPv6.
pub(crate) const INET6: u8 = 0x21;

impl Family {
    /// The family that a byte stands for.
    pub(crate) fn of(byte: u8) -> Option<Family>
        ensures { result ≡ family_of byte }
    {
        match byte {
            INET => Some(Family::Inet),
            INET6 => Some(Family::Inet6),
            _ => None,
        }
    }

    pub(crate) fn byte(self) -> u8
        ensures { result ≡ byte_of self }
    {
        match self {
            Family::Inet => INET,
            Family::Inet6 => INET6,
        }
    }

    /// How many octets an address has.
    pub(crate) fn address_len(self) -> usize
        ensures { result ≡ octets_of self }
    {
        match self {
            Family::Inet => 4,
            Family::Inet6 => 16,
        }
    }
}
