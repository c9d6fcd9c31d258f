//! An inbound link.

ghost use Rattle.std.specs.Prelude.{◌≡◌, ℕ, true, IfOk};
ghost use Rattle.hb_link.specs.Calls.{Begins, TurnsAway, Wants, Puts};
ghost use Rattle.hb_link.specs.Fresh.{IsFresh};
ghost use Rattle.hb_link.specs.Observed.{wants_on, output_on};
ghost use Rattle.hb_link.specs.Rousing.{roused_on};

use crate::phase::Phase;
use crate::roused::Roused;
use crate::tunnel::Tunnel;
use hb_base::{Cause, Ip, NoMemory, Peer};
use hb_conn::Conn;
use hb_counted::Counted;
use hb_front::FrontBytes;
use hb_tunnel::Turn;
use std::alloc::Global;

/// The room of the output that the answers to what is read may not need.
const SPARE: usize = 320;

/// How much of the room the answers to an octet that is read may take, with what is granted again of DATA.
const ANSWERS: usize = 5;

/// An inbound link that was taken in.
#[derive(Drop)]
pub struct Link {
    pub(crate) alloc: Global,
    pub(crate) number: u64,
    pub(crate) phase: Phase,
    pub(crate) front: FrontBytes,
    /// What the front header told: who the peer is, and which address it meant.
    pub(crate) peer: Peer,
    pub(crate) destination: Ip,
    pub(crate) conn: Conn,
    /// The tunnels under their streams.
    pub(crate) tunnels: Counted<Tunnel>,
    /// Behind which stream the next DATA goes.
    pub(crate) turn: Turn,
    /// The streams whose upstreams are roused: more may be read of them, or is to be written, than when that was told last.
    pub(crate) roused: Roused,
}

impl Link {
    /// A link in this phase of which nothing came.
    ///
    /// Errors: `NoMemory`.
    fn fresh(alloc: Global, number: u64, phase: Phase) -> Result<Link, NoMemory>
        ensures fresh { IfOk result (λ link. IsFresh number phase link) }
        ensures roused { IfOk result (λ link. (s : ℕ) → roused_on link s ≡ true) }
    {
        Ok(Link {
            alloc,
            number,
            phase,
            front: FrontBytes::new(alloc)?,
            peer: Peer {
                ip: Ip::V4(0),
                identity: None,
            },
            destination: Ip::V4(0),
            conn: Conn::server(alloc)?,
            tunnels: Counted::new(alloc),
            turn: Turn::new(),
            roused: Roused::all(),
        })
    }

    /// A link that was accepted: its front header is to come.
    ///
    /// Errors: `NoMemory`; a link of which nothing is kept is to be closed for that cause.
    pub fn accepted(alloc: Global, number: u64) -> Result<Link, NoMemory>
        ensures begins { IfOk result (λ link. Begins number link) }
        ensures roused { IfOk result (λ link. (s : ℕ) → roused_on link s ≡ true) }
        ensures number { IfOk result (λ link. link.number ≡ number) }
    {
        Link::fresh(alloc, number, Phase::Fronting)
    }

    /// A link that was accepted where as many are open as may be: it is to be closed for that cause.
    ///
    /// Errors: `NoMemory`, as of one that is taken in.
    pub fn turned_away(alloc: Global, number: u64) -> Result<Link, NoMemory>
        ensures turns { IfOk result (λ link. TurnsAway number link) }
        ensures roused { IfOk result (λ link. (s : ℕ) → roused_on link s ≡ true) }
        ensures number { IfOk result (λ link. link.number ≡ number) }
    {
        Link::fresh(alloc, number, Phase::Closing(Cause::NoRoom))
    }

    /// How many bytes may be read now.
    pub fn wants(&self) -> usize
        ensures value { result ≡ wants_on self.now }
        ensures machine { Wants self.now result }
    {
        match self.phase {
            Phase::Fronting => self.front.room(),
            Phase::Serving => {
                (self.conn.room().saturating_sub(SPARE) / ANSWERS).min(self.conn.space())
            }
            _ => 0,
        }
    }

    /// What may be written now.
    pub fn output(&self) -> &[u8]
        ensures value { result.now ≡ output_on self.now }
        ensures machine { Puts self.now result.now }
    {
        match self.phase {
            Phase::Serving | Phase::Faulted(_) => self.conn.output(),
            _ => b"",
        }
    }
}
