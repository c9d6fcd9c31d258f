//! One tunnel.

ghost use Rattle.std.specs.Prelude.{◌≡◌};
ghost use Rattle.hb_tunnel.specs.Way.{IsFront};
ghost use Rattle.hb_inbound.specs.Calm.{is_done_on};
ghost use Rattle.hb_link.specs.Tunnels.{opened_on, tunnel_of};
ghost use Rattle.hb_link.specs.Looking.{came_here};
ghost use Rattle.hb_link.specs.Observed.{wants_of_up, held_of_up};
ghost use Rattle.hb_inbound.specs.Tunnel.{may_shut};
ghost use Rattle.hb_link.specs.Acting.{act_here};
ghost use Rattle.hb_link.specs.Marking.{ended_stage, ended_tunnel, down_ended_tunnel, judged_tunnel};

use hb_base::{Cause, Peer, Target, Why};
use hb_conn::Conn;
use hb_held::Held;
use hb_table::{Judged, judge};
use hb_tunnel::{Phase as Way, Tunnel as Ways, UP_SIZE};
use hb_world::Act;

/// How far a tunnel is.
#[derive(Clone, Copy)]
pub enum Stage {
    /// Its target is to be dialled.
    Due,
    /// It is dialled, and not open yet.
    Opening,
    /// Bytes come and go.
    Live,
    /// It ended for this cause while its upstream wasn't open yet: its stream is still to get what it gets.
    Failed(Cause),
    /// It ended for this cause while it was live: its stream is still to get what it gets.
    Ended(Cause),
    /// Its upstream is to be closed for this cause.
    Over(Cause),
}

impl Stage {
    /// How far a tunnel is behind its end for a cause. The first end counts.
    fn ends_for(self, cause: Cause) -> Stage
        ensures { result ≡ ended_stage cause self }
    {
        match self {
            Stage::Due | Stage::Opening => Stage::Failed(cause),
            Stage::Live => Stage::Ended(cause),
            stage => stage,
        }
    }
}

/// A tunnel on a stream of the link.
#[derive(Drop)]
pub struct Tunnel {
    pub stage: Stage,
    /// The number of its upstream, 0 before that is dialled.
    pub up: u64,
    pub target: Target,
    pub ways: Ways,
    /// The bytes written to the upstream, and those in DATA frames of which an octet was written; each stops at 2^64 - 1.
    pub went_up: u64,
    pub went_down: u64,
    /// The upstream's sending side is shut.
    pub shut: bool,
    /// This end has ended the stream.
    pub end_put: bool,
}

impl Tunnel {
    /// Its upstream is open: it lives.
    pub fn open(&mut self)
        ensures { self.new ≡ opened_on self.old }
    {
        self.stage = Stage::Live;
        if let Way::Dialling = self.ways.phase() {
            self.ways.opened();
        }
    }

    /// It ends for a cause, where it has a place. The first end counts.
    pub fn end_for(&mut self, cause: Cause)
        ensures { self.new ≡ ended_tunnel cause self.old }
    {
        self.stage = self.stage.ends_for(cause);
    }

    /// Its upstream sends no more.
    pub fn end_down(&mut self)
        ensures { self.new ≡ down_ended_tunnel self.old }
    {
        self.ways.end_down();
    }

    /// It ends where its peer is no longer admitted.
    pub fn judge(&mut self, held: &Held, peer: &Peer)
        ensures { self.new ≡ judged_tunnel held.now peer.now self.old }
    {
        match judge(held, peer, self.target) {
            Judged::Admitted => {}
            _ => self.end_for(Cause::Revoked),
        }
    }

    /// These bytes came of the peer. Where they don't fit, or it had ended its side, nothing of them is kept.
    pub fn came_up(&mut self, bytes: &[u8])
        ensures { self.new ≡ came_here bytes.now self.old }
    {
        if !self.ways.up_ended() && bytes.len() <= self.ways.room_up() {
            self.ways.push_up(bytes);
        }
    }

    /// How many bytes may be read of its upstream now.
    pub fn up_wants(&self) -> usize
        ensures { result ≡ wants_of_up self.now }
    {
        match self.stage {
            Stage::Live => {
                if self.ways.down_ended() {
                    0
                } else {
                    self.ways.room_down()
                }
            }
            _ => 0,
        }
    }

    /// A front part of the bytes that wait to be written to it; none only where none waits.
    pub fn up_output(&self) -> &[u8]
        ensures { IsFront result.now (held_of_up self.now) }
    {
        match self.stage {
            Stage::Live => self.ways.held_up(),
            _ => b"",
        }
    }

    /// The act that is due of it, on this stream of this link: its dial, the shut of its upstream, or that one's close. `None` where
    /// none is due.
    pub fn act(&self, link: u64, stream: u32) -> Option<Act>
        ensures { result ≡ act_here link stream self.now }
    {
        match self.stage {
            Stage::Due => Some(Act::Dial {
                to: self.target,
                why: Why::Upstream { link, stream },
            }),
            Stage::Live if self.may_shut() => Some(Act::Shut { link: self.up }),
            Stage::Over(cause) => Some(Act::Close {
                link: self.up,
                cause,
            }),
            _ => None,
        }
    }

    /// The sending side of its upstream may be shut: the peer has ended the stream, and all that it sent is written.
    pub fn may_shut(&self) -> bool
        ensures { result ≡ may_shut (tunnel_of self.now) }
    {
        self.ways.up_ended() && self.ways.room_up() == UP_SIZE && !self.shut
    }

    /// Both sides of it ended, and all went through: also this end's END_STREAM, whole.
    pub fn is_done(&self, conn: &Conn, stream: u32) -> bool
        ensures { result ≡ is_done_on conn.now stream (tunnel_of self.now) }
    {
        self.ways.done() && self.end_put && !conn.end_waits(stream)
    }
}
