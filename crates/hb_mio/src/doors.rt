//! The doors at which connections are accepted.

ghost use Rattle.std.specs.Prelude.{◌≡◌};
ghost use Rattle.hb_mio.specs.Stuck.{stuck_at};

use crate::socket::TRIES;
use hb_base::{Door, Ip, Target};
use mio::net::{TcpListener, TcpStream};
use mio::{Interest, Registry, Token};
use std::io::{self, ErrorKind};
use std::net::{IpAddr, Ipv4Addr, Ipv6Addr, Net, SocketAddr};

/// A door, which listens or doesn't.
#[derive(Drop)]
pub(crate) struct Gate {
    listener: Option<TcpListener>,
    /// An accept failed, so connections may wait that no event tells any more.
    stuck: bool,
}

/// All doors.
#[derive(Drop)]
pub(crate) struct Doors {
    inbound: Gate,
    outbound: Gate,
    plain: Gate,
}

/// The token of a door's events, beyond those of all links.
fn token_of(door: Door) -> Token {
    match door {
        Door::Inbound => Token(usize::MAX),
        Door::Outbound => Token(usize::MAX - 1),
        Door::Plain => Token(usize::MAX - 2),
    }
}

/// The door of an event's token.
pub(crate) fn door_of(token: Token) -> Option<Door> {
    match usize::MAX - token.0 {
        0 => Some(Door::Inbound),
        1 => Some(Door::Outbound),
        2 => Some(Door::Plain),
        _ => None,
    }
}

/// The address that a target names.
pub fn address_of(target: Target) -> SocketAddr {
    let ip = match target.ip {
        Ip::V4(bits) => IpAddr::from(Ipv4Addr::from(bits)),
        Ip::V6(bits) => IpAddr::from(Ipv6Addr::from(bits)),
    };
    SocketAddr::new(ip, target.port)
}

/// The next connection that waits, if one does. A connection that was given up while it waited is passed over.
fn accept_from(listener: &TcpListener) -> io::Result<Option<TcpStream>> {
    for _ in 0..TRIES {
        match listener.accept() {
            Ok((stream, _)) => return Ok(Some(stream)),
            Err(e) if e.kind() == ErrorKind::WouldBlock => return Ok(None),
            Err(e) if e.kind() == ErrorKind::Interrupted => {}
            Err(e) if e.kind() == ErrorKind::ConnectionAborted => {}
            Err(e) => return Err(e),
        }
    }
    Err(io::Error::from(ErrorKind::Interrupted))
}

impl Gate {
    fn closed() -> Gate {
        Gate {
            listener: None,
            stuck: false,
        }
    }

    fn accept(&self) -> io::Result<Option<TcpStream>> {
        match &self.listener {
            Some(listener) => accept_from(listener),
            None => Ok(None),
        }
    }
}

impl Doors {
    /// No door listens.
    pub fn closed() -> Doors {
        Doors {
            inbound: Gate::closed(),
            outbound: Gate::closed(),
            plain: Gate::closed(),
        }
    }

    fn at(&self, door: Door) -> &Gate {
        match door {
            Door::Inbound => &self.inbound,
            Door::Outbound => &self.outbound,
            Door::Plain => &self.plain,
        }
    }

    fn set(&mut self, door: Door, gate: Gate) {
        match door {
            Door::Inbound => self.inbound = gate,
            Door::Outbound => self.outbound = gate,
            Door::Plain => self.plain = gate,
        }
    }

    /// Sets whether connections may wait at a door that no event tells.
    pub fn set_stuck(&mut self, door: Door, stuck: bool)
        ensures { stuck_at door self.new ≡ stuck }
    {
        match door {
            Door::Inbound => self.inbound.stuck = stuck,
            Door::Outbound => self.outbound.stuck = stuck,
            Door::Plain => self.plain.stuck = stuck,
        }
    }

    /// Whether connections may wait at a door that no event tells.
    pub fn is_stuck(&self, door: Door) -> bool
        ensures { result ≡ stuck_at door self.now }
    {
        match door {
            Door::Inbound => self.inbound.stuck,
            Door::Outbound => self.outbound.stuck,
            Door::Plain => self.plain.stuck,
        }
    }

    /// Begins to listen at a door, in place of where it listened.
    ///
    /// Errors: what the system tells, and then the door is as it was.
    pub fn open(
        &mut self,
        net: &impl Net,
        registry: &Registry,
        at: Target,
        door: Door,
    ) -> io::Result<()> {
        let mut listener = TcpListener::bind(net, address_of(at))?;
        registry.register(&mut listener, token_of(door), Interest::READABLE)?;
        self.set(
            door,
            Gate {
                listener: Some(listener),
                stuck: false,
            },
        );
        Ok(())
    }

    /// The next connection that waits at a door, if one does.
    ///
    /// Errors: what the system tells, and then connections may wait there still.
    pub fn accept(&self, door: Door) -> io::Result<Option<TcpStream>> {
        self.at(door).accept()
    }
}
