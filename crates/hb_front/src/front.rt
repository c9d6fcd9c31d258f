//! What bytes are that may not all be there yet.

ghost use Rattle.std.specs.Prelude.{◌≡◌, ◌⊎◌, ◌+◌, ◌≤◌, length, take, nat_eq, None};
ghost use Rattle.std.specs.List.{starts_with};
ghost use Rattle.hb_base.specs.Octets.{ip_of_octets};
ghost use Rattle.hb_front.specs.Header.{signature};
ghost use Rattle.hb_front.specs.Reading.{answer_of, IsAnswer, IsWithin};
ghost use Rattle.hb_front.specs.Reading.{head_fault, length_fault, least_size, pair_at as number_at, size_at};

use crate::family::{Family, INET6};
use crate::fault::FrontFault;
use crate::identity::identity_in;
use hb_base::{Ip, Target};

/// The bytes that begin each header.
pub(crate) const SIGNATURE: [u8; 12] = *b"\r\n\r\n\0\r\nQUIT\n";

/// Version 2, command PROXY.
pub(crate) const VERSION: u8 = 0x21;

/// The bytes in front of the addresses.
pub(crate) const HEAD: usize = 16;

/// The greatest length behind them.
const MAX_LENGTH: u16 = 4096;

/// A header (PROXY protocol section 2.2): both ends of the connection, and the text of the peer's identity, which
/// the type-length-value e0 holds. Others are passed over.
#[derive(Clone, Copy)]
pub struct Front<'a> {
    pub source: Target,
    pub destination: Target,
    /// `spiffe://TD/ns/NS/sa/SA`, which `read_identity` reads.
    pub identity: Option<&'a [u8]>,
    /// How many bytes the header has.
    pub length: usize,
}

/// What bytes begin with.
#[derive(Clone, Copy)]
pub enum FrontRead<'a> {
    /// A whole header.
    Whole(Front<'a>),
    /// The front of a header: more bytes are wanted to tell.
    More,
    Fault(FrontFault),
}

/// The number that two bytes spell, the most significant first.
fn pair_at(b: &[u8], at: usize) -> u16
    requires { at + 2 ≤ length b.now }
    ensures { result ≡ number_at b.now at }
{
    u16::from_be_bytes([b[at], b[at + 1]])
}

/// Whether the bytes begin like the signature, as far as they are there.
fn begins_like_signature(b: &[u8]) -> bool
    ensures { result ≡ starts_with nat_eq signature (take 12 b.now) }
{
    let size = SIGNATURE.len().min(b.len());
    SIGNATURE.starts_with(&b[..size])
}

/// The fault that the first 16 bytes make, as far as they are there.
fn head_fault(b: &[u8]) -> Option<FrontFault>
    ensures { result ≡ head_fault b.now }
{
    if !begins_like_signature(b) {
        return Some(FrontFault::BadSignature);
    }
    if b.len() > 12 && b[12] != VERSION {
        return Some(FrontFault::BadVersion);
    }
    if b.len() > 13 && Family::of(b[13]).is_none() {
        return Some(FrontFault::BadFamily);
    }
    if b.len() < HEAD {
        return None;
    }
    length_fault(pair_at(b, 14), b[13])
}

/// The fault of a length behind the first 16 bytes.
fn length_fault(size: u16, family: u8) -> Option<FrontFault>
    ensures { result ≡ length_fault size (least_size family) }
{
    let least = if family == INET6 { 36 } else { 12 };
    if size > MAX_LENGTH {
        Some(FrontFault::TooLong)
    } else if size < least {
        Some(FrontFault::BadLength)
    } else {
        None
    }
}

/// The address of its octets.
fn ip_of(octets: &[u8]) -> Ip
    requires { (length octets.now ≡ 4) ⊎ (length octets.now ≡ 16) }
    ensures { ip_of_octets octets.now ≡ Some result }
{
    match Ip::from_octets(octets) {
        Some(ip) => ip,
        None => unreachable!(),
    }
}

/// A header whose bytes are all there, and whose first 16 make no fault.
fn whole_front(b: &[u8]) -> FrontRead<'_>
    requires head { head_fault b.now ≡ None }
    requires whole { 16 + size_at b.now ≤ length b.now }
    ensures answer { IsAnswer b.now (answer_of result) }
    ensures within { IsWithin (length b.now) result }
{
    let Some(family) = Family::of(b[13]) else {
        unreachable!()
    };
    let length = HEAD + pair_at(b, 14) as usize;
    let (source, rest) = b[HEAD..length].split_at(family.address_len());
    let (destination, rest) = rest.split_at(family.address_len());
    let (ports, tlvs) = rest.split_at(4);
    match identity_in(tlvs) {
        Err(fault) => FrontRead::Fault(fault),
        Ok(identity) => FrontRead::Whole(Front {
            source: Target {
                ip: ip_of(source),
                port: pair_at(ports, 0),
            },
            destination: Target {
                ip: ip_of(destination),
                port: pair_at(ports, 2),
            },
            identity,
            length,
        }),
    }
}

/// Reads the header that bytes begin with (PROXY protocol section 2.2). `Fault` as soon as one of the first 16 bytes
/// tells it, and once the header is whole for its type-length-values; `More` while neither it nor a fault is there.
/// It takes no memory.
pub fn read_front(b: &[u8]) -> FrontRead<'_>
    ensures answer { IsAnswer b.now (answer_of result) }
    ensures within { IsWithin (length b.now) result }
{
    if let Some(fault) = head_fault(b) {
        return FrontRead::Fault(fault);
    }
    if b.len() < HEAD || b.len() < HEAD + pair_at(b, 14) as usize {
        return FrontRead::More;
    }
    whole_front(b)
}
