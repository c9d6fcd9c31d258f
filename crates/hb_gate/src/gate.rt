//! A link to a gateway.

ghost use Rattle.std.specs.Prelude.{◌≡◌, IfOk};
ghost use Rattle.hb_gateway.specs.Gateway.{offers};
ghost use Rattle.hb_gateway.specs.Keys.{key_as};
ghost use Rattle.hb_gate.specs.Calls.{Begins, Wants, Holds, HasBegun, Offers, IsFor, Carries, Serves, IsCarrying};
ghost use Rattle.hb_gate.specs.Keyed.{IsWritable};
ghost use Rattle.hb_gate.specs.Observed.{wants_on, output_on, offers_on, link_on};
ghost use Rattle.hb_tunnel.specs.Way.{IsFront};

use crate::front::Front;
use crate::phase::Phase;
use crate::stream::Stream;
use hb_base::NoMemory;
use hb_conn::Conn;
use hb_counted::Counted;
use hb_gateway::Key;
use hb_streams::Role;
use hb_tunnel::Turn;
use std::alloc::Global;

/// The room of the output that the answers to what is read may not need.
const SPARE: usize = 320;

/// How much of the room the answers to an octet that is read may take, with what is granted again of DATA.
const ANSWERS: usize = 5;

/// The room that a request for a tunnel wants.
pub(crate) const REQUEST: usize = 1024;

/// A link to a gateway that was dialled.
#[derive(Drop)]
pub struct Gate {
    pub(crate) alloc: Global,
    pub(crate) number: u64,
    pub(crate) key: Key,
    pub(crate) phase: Phase,
    pub(crate) front: Front,
    pub(crate) conn: Conn,
    /// The streams on which tunnels were asked for, until nothing is left of them.
    pub(crate) streams: Counted<Stream>,
    /// The gateway goes away.
    pub(crate) away: bool,
    /// Behind which stream the next DATA goes.
    pub(crate) turn: Turn,
}

impl Gate {
    /// A link of this number that was dialled for this key.
    ///
    /// Errors: `NoMemory`; nothing is kept then.
    pub fn dialled(alloc: Global, number: u64, key: Key) -> Result<Gate, NoMemory>
        requires { IsWritable key }
        ensures begins { IfOk result (λ gate. Begins number (key_as key) gate) }
        ensures number { IfOk result (λ gate. gate.number ≡ number) }
    {
        let front = Front::of(alloc, &key)?;
        let conn = Conn::client(alloc)?;
        let streams = Counted::new(alloc);
        Ok(Gate {
            alloc,
            number,
            key,
            phase: Phase::Opening,
            front,
            conn,
            streams,
            away: false,
            turn: Turn::new(),
        })
    }

    /// Whether it is for this key.
    pub fn is_for(&self, key: &Key) -> bool
        ensures { IsFor self.now (key_as key.now) result }
    {
        self.key.is(key)
    }

    /// Whether it is open, and no end came.
    pub fn serves(&self) -> bool
        ensures { Serves self.now result }
    {
        self.phase.is_serving()
    }

    /// Whether it carries streams: no end came.
    pub fn carries(&self) -> bool
        ensures { IsCarrying self.now result }
    {
        self.phase.carries()
    }

    /// The captured link whose tunnel a stream carries. `None` where it carries none.
    pub fn link(&self, stream: u32) -> Option<u64>
        ensures value { result ≡ link_on self.now stream }
        ensures machine { Carries self.now stream result }
    {
        match self.streams.get(stream) {
            Some(stream) => Some(stream.link),
            None => None,
        }
    }

    /// How many bytes of the tunnel on a stream have begun to go; the count stops at 2^64 - 1.
    pub fn begun(&self, stream: u32) -> u64
        ensures { HasBegun self.now stream result }
    {
        match self.streams.get(stream) {
            Some(stream) => stream.begun,
            None => 0,
        }
    }

    /// It may carry one tunnel more, as far as it sees.
    fn can_ask(&self) -> bool
        ensures { result ≡ offers_on self.now }
    {
        self.phase.carries()
            && !self.away
            && matches!(self.conn.role(), Role::Client)
            && self.conn.next_stream().is_ok()
            && self.conn.room() >= REQUEST
    }

    /// Whether it may carry one tunnel more: it lives, the gateway doesn't go away, fewer streams are open than its limit and 100, a
    /// number is left, and 1,024 octets have room.
    pub fn offers(&self) -> bool
        ensures value { result ≡ offers_on self.now }
        ensures machine { Offers self.now result }
    {
        self.can_ask()
    }

    /// How many bytes may be read now.
    pub fn wants(&self) -> usize
        ensures value { result ≡ wants_on self.now }
        ensures machine { Wants self.now result }
    {
        match self.phase {
            Phase::Serving => {
                (self.conn.room().saturating_sub(SPARE) / ANSWERS).min(self.conn.space())
            }
            _ => 0,
        }
    }

    /// A front part of the bytes that may be written now; none only where there are none.
    pub fn output(&self) -> &[u8]
        ensures front { IsFront result.now (output_on self.now) }
        ensures machine { Holds self.now (output_on self.now) }
    {
        match self.phase {
            Phase::Serving | Phase::Faulted(_) => {
                let front = self.front.bytes();
                if front.is_empty() {
                    self.conn.output()
                } else {
                    front
                }
            }
            _ => b"",
        }
    }
}
