//! Prefixes of addresses.

ghost use Rattle.std.specs.Prelude.{◌≡◌, ◌/◌, ◌^◌, ◌==◌};
ghost use Rattle.hb_base.specs.Cidr.{within, v4_prefix, cidr_of, covers};

use crate::ip::{Ip, MAPPED_PREFIX};

/// The addresses whose first `length` bits are those of `ip` (RFC 4291 section 2.3).
#[derive(Clone, Copy)]
pub struct Cidr {
    pub ip: Ip,
    pub length: u32,
}

/// Whether two numbers are the same but for so many of their last bits.
fn agree(a: u128, b: u128, last: u32) -> bool
    ensures { result ≡ (a / 2 ^ last == b / 2 ^ last) }
{
    if last >= 128 {
        return true;
    }
    a >> last == b >> last
}

/// A prefix of an address of so many bits.
fn within(bits: u32, ip: Ip, length: u32) -> Option<Cidr>
    ensures { result ≡ within bits ip length }
{
    if length > bits {
        return None;
    }
    Some(Cidr { ip, length })
}

/// An IPv4 prefix of these octets, where they are four.
fn v4_prefix(octets: &[u8], length: u32) -> Option<Cidr>
    ensures { result ≡ v4_prefix octets.now length }
{
    let octets = <[u8; 4]>::try_from(octets).ok()?;
    within(32, Ip::V4(u32::from_be_bytes(octets)), length)
}

impl Cidr {
    /// The prefix of these octets, 4 or 16, most significant first, with a length in bits. `None` for any
    /// other number of octets, and where the length exceeds their 32 or 128 bits. With 96 bits or more, octets
    /// that map an IPv4 address (RFC 4291 section 2.5.5.2) give an IPv4 prefix.
    pub fn new(ip: &[u8], length: u32) -> Option<Cidr>
        ensures { result ≡ cidr_of ip.now length }
    {
        let Ok(octets) = <[u8; 16]>::try_from(ip) else {
            return v4_prefix(ip, length);
        };
        if length >= 96 && ip.starts_with(&MAPPED_PREFIX) {
            let (_, last) = ip.split_at(12);
            return v4_prefix(last, length - 96);
        }
        within(128, Ip::V6(u128::from_be_bytes(octets)), length)
    }

    /// Whether this prefix covers an address: it is of the same family, and its first `length` bits are the
    /// same.
    pub fn covers(&self, ip: Ip) -> bool
        ensures { result ≡ covers self.now ip }
    {
        match (self.ip, ip) {
            (Ip::V4(own), Ip::V4(other)) => {
                agree(
                    u128::from(own),
                    u128::from(other),
                    32u32.saturating_sub(self.length),
                )
            }
            (Ip::V6(own), Ip::V6(other)) => agree(own, other, 128u32.saturating_sub(self.length)),
            _ => false,
        }
    }
}
