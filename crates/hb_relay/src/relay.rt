//! A captured link.

ghost use Rattle.std.specs.Prelude.{◌≡◌, IfOk};
ghost use Rattle.hb_tunnel.specs.Way.{IsFront};
ghost use Rattle.hb_captured.specs.Calm.{wants, up_wants, output, up_output};
ghost use Rattle.hb_captured.specs.Captured.{no_link};
ghost use Rattle.hb_relay.specs.Acts.{Wants, UpWants, Holds, UpHolds};
ghost use Rattle.hb_relay.specs.Shows.{captured_of, stage_of};

use crate::aim::Aim;
use crate::rings::Rings;
use crate::stage::Stage;
use hb_base::{Door, Identity, Ip, NoMemory, Target};
use hb_front::FrontBytes;
use std::alloc::Global;

/// A link of the plain door, or of the outbound one, that was taken in.
#[derive(Drop)]
pub struct Relay {
    pub(crate) alloc: Global,
    pub(crate) number: u64,
    pub(crate) stage: Stage,
    pub(crate) front: FrontBytes,
    /// What the front header told: where the peer is, and which target it meant.
    pub(crate) source: Ip,
    pub(crate) target: Target,
    /// The identity that the note of its verdict tells of its peer; none once it is noted.
    pub(crate) identity: Option<Identity>,
    /// Where its bytes are to go.
    pub(crate) aim: Aim,
    /// The number of its upstream, 0 before that is dialled and behind its close.
    pub(crate) up: u64,
    /// Its stream, of the link to a gateway of this number, which is 0 while it has none.
    pub(crate) gate: u64,
    pub(crate) gate_stream: u32,
    /// The bytes written to it that weren't given back to its stream's window.
    pub(crate) owed: u64,
    /// Its door, and the bytes that wait.
    pub(crate) ways: Rings,
    /// The bytes written to the upstream, and to the link; each stops at 2^64 - 1.
    pub(crate) went_up: u64,
    pub(crate) went_down: u64,
    /// The upstream's sending side is shut, and the link's; the link is closed.
    pub(crate) up_shut: bool,
    pub(crate) shut: bool,
    pub(crate) closed: bool,
}

impl Relay {
    /// A link of this door, at this stage, of which nothing came.
    ///
    /// Errors: `NoMemory`.
    pub(crate) fn fresh(
        alloc: Global,
        door: Door,
        number: u64,
        stage: Stage,
    ) -> Result<Relay, NoMemory>
        ensures number { IfOk result (λ k. k.number ≡ number) }
        ensures value { IfOk result (λ k. captured_of k ≡ record no_link { door = door; stage = stage_of stage }) }
    {
        let unknown = Target {
            ip: Ip::V4(0),
            port: 0,
        };
        Ok(Relay {
            alloc,
            number,
            stage,
            front: FrontBytes::new(alloc)?,
            source: Ip::V4(0),
            target: unknown,
            identity: None,
            aim: Aim::Straight {
                to: unknown,
                endpoint: None,
            },
            up: 0,
            gate: 0,
            gate_stream: 0,
            owed: 0,
            ways: Rings::new(alloc, door)?,
            went_up: 0,
            went_down: 0,
            up_shut: false,
            shut: false,
            closed: false,
        })
    }

    /// The number of its upstream, 0 where it has none.
    pub fn upstream(&self) -> u64
        ensures { result ≡ (captured_of self.now).up }
    {
        self.up
    }

    /// How many bytes may be read of it now.
    pub fn wants(&self) -> usize
        ensures value { result ≡ wants (captured_of self.now) }
        ensures machine { Wants self.now result }
    {
        match self.stage {
            Stage::Fronting => self.front.room(),
            Stage::Opening | Stage::Live => {
                if self.ways.up_ended() {
                    0
                } else {
                    self.ways.room_up()
                }
            }
            _ => 0,
        }
    }

    /// How many bytes may be read of its upstream now.
    pub fn up_wants(&self) -> usize
        ensures value { result ≡ up_wants (captured_of self.now) }
        ensures machine { UpWants self.now result }
    {
        match self.stage {
            Stage::Live => {
                if self.ways.down_ended() {
                    0
                } else {
                    self.ways.room_down()
                }
            }
            _ => 0,
        }
    }

    /// A front part of the bytes that wait to be written to it; none only where none waits.
    pub fn output(&self) -> &[u8]
        ensures front { IsFront result.now (output (captured_of self.now)) }
        ensures machine { Holds self.now (output (captured_of self.now)) }
    {
        match self.stage {
            Stage::Live => self.ways.held_down(),
            _ => b"",
        }
    }

    /// A front part of the bytes that wait to be written to its upstream; none only where none waits.
    pub fn up_output(&self) -> &[u8]
        ensures front { IsFront result.now (up_output (captured_of self.now)) }
        ensures machine { UpHolds self.now (up_output (captured_of self.now)) }
    {
        match self.stage {
            Stage::Live => self.ways.held_up(),
            _ => b"",
        }
    }
}
