//! The other ends of links: where they listen, and what comes at them.

use hb_base::{Ip, Target};
use std::io::{self, ErrorKind};
use std::net::{Ipv4Addr, SocketAddr, TcpListener, TcpStream};

/// An address of this machine.
pub fn here(port: u16) -> SocketAddr {
    SocketAddr::from((Ipv4Addr::LOCALHOST, port))
}

/// The target of a port of this machine.
pub fn target(port: u16) -> Target {
    Target {
        ip: Ip::V4(0x7f00_0001),
        port,
    }
}

/// The target of a port of another machine (RFC 5737).
pub fn far(port: u16) -> Target {
    Target {
        ip: Ip::V4(0xc000_0201),
        port,
    }
}

/// A listener at a port that is free, and the port.
pub fn listener(rt: &HostRuntime) -> io::Result<(TcpListener, u16)> {
    let listener = TcpListener::bind(rt, here(0))?;
    let port = listener.local_addr()?.port();
    Ok((listener, port))
}

/// A port at which nobody listens.
pub fn free_port(rt: &HostRuntime) -> io::Result<u16> {
    let (_, port) = listener(rt)?;
    Ok(port)
}

/// The sum of values of octets.
pub fn sum_of(octets: &[u8]) -> u64 {
    let mut sum = 0u64;
    for octet in octets {
        sum = sum.saturating_add(u64::from(*octet));
    }
    sum
}

/// Octets that are each their place's number modulo 251.
pub fn pattern() -> [u8; 16384] {
    let mut octets = [0u8; 16384];
    for at in 0..16384usize {
        octets[at] = (at % 251) as u8;
    }
    octets
}

/// Reads exactly so many octets at a link's other end, each of which has to be its place's number modulo 251.
pub fn check_far(peer: &mut TcpStream, from: usize, count: usize) -> io::Result<()> {
    let mut room = [0u8; 4096];
    let mut at = 0usize;
    for _ in 0..u32::MAX {
        if at >= count {
            return Ok(());
        }
        let n = io::Read::read(peer, &mut room[..(count - at).min(4096)])?;
        if n == 0 {
            break;
        }
        for octet in &room[..n] {
            if usize::from(*octet) != from.saturating_add(at) % 251 {
                return Err(io::Error::from(ErrorKind::InvalidData));
            }
            at = at.saturating_add(1);
        }
    }
    Err(io::Error::from(ErrorKind::UnexpectedEof))
}

/// Whether this text comes next at a link's other end.
pub fn comes(peer: &mut TcpStream, text: &str) -> io::Result<bool> {
    let mut room = [0u8; 16];
    let room = &mut room[..text.len().min(16)];
    io::Read::read_exact(peer, room)?;
    Ok(&*room == text.as_bytes())
}
