//! Both ways of a tunnel.

ghost use Rattle.std.specs.Prelude.{◌≡◌, ◌&&◌, ◌+◌, ◌≤◌, length, true, IfOk, IsFalse};
ghost use Rattle.hb_tunnel.specs.Way.{pushes, takes, ends, after, is_done};
ghost use Rattle.hb_tunnel.specs.Tunnel.{dialling, up_size, down_size, phase_of};

use crate::phase::Phase;
use crate::ring::Ring;
use hb_base::NoMemory;
use std::alloc::Global;
use std::marker::Model;

/// How many bytes can wait on the way up: as many as the peer's window of a stream allows.
pub const UP_SIZE: usize = 65_535;

/// How many bytes can wait on the way down: as many as the payload of a DATA frame has at most.
pub const DOWN_SIZE: usize = 16_384;

/// One tunnel. Up is the way out of an HTTP/2 stream towards the upstream, down the way back into the stream. `new`
/// takes the memory of both rings; no other call takes any.
#[derive(Drop)]
pub struct Tunnel {
    is_open: bool,
    up: Ring,
    down: Ring,
}

impl Model for Tunnel {
    ghost use Rattle.std.specs.Prelude.{◌≡◌};
    ghost use Rattle.hb_tunnel.specs.Tunnel.{Ways, up_size, down_size};

    ghost Value = { Ways };

    ghost view = { λ t. record { is_open = t.is_open; up = t.up.way; down = t.down.way } };

    ghost invariant = { λ t. (t.up.size ≡ up_size) × (t.down.size ≡ down_size) };
}

impl Tunnel {
    /// A tunnel whose upstream isn't open yet, with nothing on either way.
    ///
    /// Errors: `NoMemory`.
    pub fn new(alloc: Global) -> Result<Tunnel, NoMemory>
        ensures { IfOk result (λ tunnel. tunnel ≡ dialling) }
    {
        let up = Ring::new(alloc, UP_SIZE)?;
        let down = Ring::new(alloc, DOWN_SIZE)?;
        Ok(Tunnel {
            is_open: false,
            up,
            down,
        })
    }

    /// How far the tunnel is.
    pub fn phase(&self) -> Phase
        ensures { result ≡ phase_of self.now }
    {
        match (self.is_open, self.up.has_ended(), self.down.has_ended()) {
            (false, _, _) => Phase::Dialling,
            (true, false, false) => Phase::Open,
            (true, true, false) => Phase::UpEnded,
            (true, false, true) => Phase::DownEnded,
            (true, true, true) => Phase::BothEnded,
        }
    }

    /// The upstream is open from now on.
    pub fn opened(&mut self)
        requires dialling { IsFalse self.old.is_open }
        ensures { self.new ≡ record self.old { is_open = true } }
    {
        self.is_open = true;
    }

    /// The way up has ended, in whatever phase.
    pub fn up_ended(&self) -> bool
        ensures { result ≡ self.now.up.has_ended }
    {
        self.up.has_ended()
    }

    /// The way down has ended, in whatever phase.
    pub fn down_ended(&self) -> bool
        ensures { result ≡ self.now.down.has_ended }
    {
        self.down.has_ended()
    }

    /// How many more bytes fit on the way up.
    pub fn room_up(&self) -> usize
        ensures { result + length self.now.up.held ≡ up_size }
    {
        self.up.room()
    }

    /// Bytes came that go up.
    pub fn push_up(&mut self, bytes: &[u8])
        requires fits { length self.old.up.held + length bytes.now ≤ up_size }
        requires goes_on { IsFalse self.old.up.has_ended }
        ensures { self.new ≡ record self.old { up = after self.old.up (pushes bytes.now) } }
    {
        self.up.push(bytes);
    }

    /// The bytes that wait on the way up, in order.
    pub fn held_up(&self) -> &[u8]
        ensures { result.now ≡ self.now.up.held }
    {
        self.up.held()
    }

    /// The first `count` bytes that waited on the way up were written.
    pub fn took_up(&mut self, count: usize)
        requires { count ≤ length self.old.up.held }
        ensures { self.new ≡ record self.old { up = after self.old.up (takes count) } }
    {
        self.up.take(count);
    }

    /// No further byte comes that goes up.
    pub fn end_up(&mut self)
        ensures { self.new ≡ record self.old { up = after self.old.up ends } }
    {
        self.up.end();
    }

    /// The upstream's sending side may be shut: it is open, the way up has ended, and all its bytes were written.
    pub fn may_shut(&self) -> bool
        ensures { result ≡ (self.now.is_open && is_done self.now.up) }
    {
        self.is_open && self.up.is_done()
    }

    /// How many more bytes fit on the way down.
    pub fn room_down(&self) -> usize
        ensures { result + length self.now.down.held ≡ down_size }
    {
        self.down.room()
    }

    /// Bytes came that go down.
    pub fn push_down(&mut self, bytes: &[u8])
        requires fits { length self.old.down.held + length bytes.now ≤ down_size }
        requires goes_on { IsFalse self.old.down.has_ended }
        ensures { self.new ≡ record self.old { down = after self.old.down (pushes bytes.now) } }
    {
        self.down.push(bytes);
    }

    /// The bytes that wait on the way down, in order.
    pub fn held_down(&self) -> &[u8]
        ensures { result.now ≡ self.now.down.held }
    {
        self.down.held()
    }

    /// The first `count` bytes that waited on the way down were put.
    pub fn took_down(&mut self, count: usize)
        requires { count ≤ length self.old.down.held }
        ensures { self.new ≡ record self.old { down = after self.old.down (takes count) } }
    {
        self.down.take(count);
    }

    /// No further byte comes that goes down.
    pub fn end_down(&mut self)
        ensures { self.new ≡ record self.old { down = after self.old.down ends } }
    {
        self.down.end();
    }

    /// The way down has ended, and no byte waits on it.
    pub fn down_done(&self) -> bool
        ensures { result ≡ is_done self.now.down }
    {
        self.down.is_done()
    }

    /// END_STREAM may be put on the stream: the upstream is open, the way down has ended, and all its bytes were put.
    pub fn may_end(&self) -> bool
        ensures { result ≡ (self.now.is_open && is_done self.now.down) }
    {
        self.is_open && self.down.is_done()
    }

    /// Both ways have ended, and no byte waits on either.
    pub fn done(&self) -> bool
        ensures { result ≡ (is_done self.now.up && is_done self.now.down) }
    {
        self.up.is_done() && self.down.is_done()
    }
}
