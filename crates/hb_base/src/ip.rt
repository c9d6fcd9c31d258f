//! Addresses and their text.

ghost use Rattle.std.specs.Prelude.{◌≡◌, ◌++◌, IfOk, is_ok, if◌then◌else◌};
ghost use Rattle.std.specs.String.{string_bytes};
ghost use Rattle.hb_base.specs.IpText.{v4_of, v6_of, ip_of, ip_text};
ghost use Rattle.hb_base.specs.Octets.{ip_of_octets};

use crate::or::NoMemory;
use std::alloc::Global;
use std::net::{Ipv4Addr, Ipv6Addr};

/// The octets before an IPv4 address that is mapped into IPv6 (RFC 4291 section 2.5.5.2).
pub(crate) const MAPPED_PREFIX: [u8; 12] = [0, 0, 0, 0, 0, 0, 0, 0, 0, 0, 255, 255];

/// An IPv4 or IPv6 address as a number, its first octet the most significant.
#[derive(Clone, Copy, Debug, PartialEq, Eq)]
pub enum Ip {
    V4(u32),
    V6(u128),
}

impl Ip {
    /// The address that 4 or 16 octets give, most significant first; `None` for any other number of
    /// octets. An IPv4 address mapped into IPv6 (RFC 4291 section 2.5.5.2) is the IPv4 address.
    pub fn from_octets(b: &[u8]) -> Option<Ip>
        ensures { result ≡ ip_of_octets b.now }
    {
        if let Ok(octets) = <[u8; 4]>::try_from(b) {
            return Some(Ip::V4(u32::from_be_bytes(octets)));
        }
        let octets = <[u8; 16]>::try_from(b).ok()?;
        if b.starts_with(&MAPPED_PREFIX) {
            let (_, last) = b.split_at(12);
            let octets = <[u8; 4]>::try_from(last).ok()?;
            return Some(Ip::V4(u32::from_be_bytes(octets)));
        }
        Some(Ip::V6(u128::from_be_bytes(octets)))
    }
}

/// Reads IPv4 text.
pub(crate) fn read_v4(b: &[u8]) -> Option<Ip>
    ensures { result ≡ v4_of b.now }
{
    let address = Ipv4Addr::parse_ascii(b).ok()?;
    Ip::from_octets(&address.octets())
}

/// Reads IPv6 text.
pub(crate) fn read_v6(b: &[u8]) -> Option<Ip>
    ensures { result ≡ v6_of b.now }
{
    let address = Ipv6Addr::parse_ascii(b).ok()?;
    Ip::from_octets(&address.octets())
}

/// Reads the text of an address. IPv4 text is four decimal numbers from 0 to 255 without leading zeros,
/// joined by dots (RFC 3986 section 3.2.2). IPv6 text is that of RFC 4291 section 2.2: eight groups of one
/// to four hexadecimal digits of either case, joined by colons; `::` may stand once for one or more zero
/// groups, and IPv4 text for the last two groups. `None` for every other text.
#[tactic(auto, unfolding(crate::specs::IpText::ip_of))]
pub fn read_ip(b: &[u8]) -> Option<Ip>
    ensures { result ≡ ip_of b.now }
{
    match read_v4(b) {
        Some(ip) => Some(ip),
        None => read_v6(b),
    }
}

/// The text of an address.
#[tactic(auto, unfolding(crate::specs::IpText::ip_text, std::specs::Net::Addr::IsIpv4OfBits, std::specs::Net::Addr::IsIpv6OfBits))]
pub(crate) fn text_of(alloc: Global, ip: Ip) -> Result<String, NoMemory>
    ensures { IfOk result (λ text. string_bytes text ≡ ip_text ip) }
{
    match ip {
        Ip::V4(n) => Ipv4Addr::from_bits(n).to_string(alloc),
        Ip::V6(n) => Ipv6Addr::from_bits(n).hex_groups().to_string(alloc),
    }
}

/// Writes the text of an address behind the bytes of `out`: an IPv6 address by RFC 5952 section 4, always as
/// hexadecimal groups, without brackets.
///
/// Errors: `NoMemory`, and then `out` is unchanged.
pub fn put_ip(alloc: Global, ip: Ip, out: &mut Vec<u8>) -> Result<(), NoMemory>
    ensures { out.new.items ≡ (if is_ok result then out.old.items ++ ip_text ip else out.old.items) }
{
    let text = text_of(alloc, ip)?;
    out.extend_from_slice(text.as_bytes())
}
