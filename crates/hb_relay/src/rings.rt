//! The bytes that wait on both ways of a link.

ghost use Rattle.std.specs.Prelude.{◌≡◌, ◌+◌, ◌≤◌, true, length, IfOk};
ghost use Rattle.hb_captured.specs.Captured.{ring_up, ring_down};
ghost use Rattle.hb_relay.specs.Rings.{fresh_rings, pushed};
ghost use Rattle.hb_tunnel.specs.Way.{takes, ends, after, is_done};

use hb_base::{Door, NoMemory};
use hb_tunnel::{DOWN_SIZE, Ring, UP_SIZE};
use std::alloc::Global;
use std::marker::Model;

/// How many bytes can wait on the way up from a link of a door.
fn ring_up(door: Door) -> usize
    ensures { result ≡ ring_up door }
{
    match door {
        Door::Outbound => DOWN_SIZE,
        _ => UP_SIZE,
    }
}

/// How many on the way down to it.
fn ring_down(door: Door) -> usize
    ensures { result ≡ ring_down door }
{
    match door {
        Door::Outbound => UP_SIZE,
        _ => DOWN_SIZE,
    }
}

/// The bytes that wait on each way of a link of a door, and which way has ended. `new` takes the memory of both rings; no other call takes
/// any.
#[derive(Drop)]
pub(crate) struct Rings {
    door: Door,
    is_open: bool,
    up: Ring,
    down: Ring,
}

impl Model for Rings {
    ghost use Rattle.std.specs.Prelude.{◌≡◌};
    ghost use Rattle.hb_captured.specs.Captured.{ring_up, ring_down};
    ghost use Rattle.hb_relay.specs.RingsAt.{RingsAt};

    ghost Value = { RingsAt };

    ghost view = { λ r. record {
      door = r.door;
      ways = record { is_open = r.is_open; up = r.up.way; down = r.down.way };
    } };

    ghost invariant = { λ r. (r.up.size ≡ ring_up r.door) × (r.down.size ≡ ring_down r.door) };
}

impl Rings {
    /// Those of a link whose upstream isn't open, with nothing on either way.
    ///
    /// Errors: `NoMemory`.
    pub fn new(alloc: Global, door: Door) -> Result<Rings, NoMemory>
        ensures { IfOk result (λ rings. rings ≡ fresh_rings door) }
    {
        Ok(Rings {
            door,
            is_open: false,
            up: Ring::new(alloc, ring_up(door))?,
            down: Ring::new(alloc, ring_down(door))?,
        })
    }

    /// The door of the link.
    pub fn door(&self) -> Door
        ensures { result ≡ self.now.door }
    {
        self.door
    }

    /// The upstream is open from now on.
    pub fn open(&mut self)
        ensures { self.new ≡ record self.old { ways = record self.old.ways { is_open = true } } }
    {
        self.is_open = true;
    }

    /// The way up has ended.
    pub fn up_ended(&self) -> bool
        ensures { result ≡ self.now.ways.up.has_ended }
    {
        self.up.has_ended()
    }

    /// The way down has ended.
    pub fn down_ended(&self) -> bool
        ensures { result ≡ self.now.ways.down.has_ended }
    {
        self.down.has_ended()
    }

    /// How many more bytes fit on the way up.
    pub fn room_up(&self) -> usize
        ensures { result + length self.now.ways.up.held ≡ ring_up self.now.door }
    {
        self.up.room()
    }

    /// How many more bytes fit on the way down.
    pub fn room_down(&self) -> usize
        ensures { result + length self.now.ways.down.held ≡ ring_down self.now.door }
    {
        self.down.room()
    }

    /// These bytes go up, where they fit.
    pub fn push_up(&mut self, b: &[u8])
        ensures { self.new ≡ record self.old {
          ways =
              record self.old.ways { up = pushed (ring_up self.old.door) b.now self.old.ways.up };
        } }
    {
        if !self.up.has_ended() && b.len() <= self.up.room() {
            self.up.push(b);
        }
    }

    /// These bytes go down, where they fit.
    pub fn push_down(&mut self, b: &[u8])
        ensures { self.new ≡ record self.old {
          ways =
              record self.old.ways { down = pushed (ring_down self.old.door) b.now self.old.ways.down };
        } }
    {
        if !self.down.has_ended() && b.len() <= self.down.room() {
            self.down.push(b);
        }
    }

    /// The bytes that wait on the way up, in order.
    pub fn held_up(&self) -> &[u8]
        ensures { result.now ≡ self.now.ways.up.held }
    {
        self.up.held()
    }

    /// The bytes that wait on the way down, in order.
    pub fn held_down(&self) -> &[u8]
        ensures { result.now ≡ self.now.ways.down.held }
    {
        self.down.held()
    }

    /// The first `n` bytes that waited on the way up were written.
    pub fn took_up(&mut self, n: usize)
        requires { n ≤ length self.old.ways.up.held }
        ensures { self.new ≡ record self.old { ways = record self.old.ways { up = after self.old.ways.up (takes n) } } }
    {
        self.up.take(n);
    }

    /// The first `n` bytes that waited on the way down were written.
    pub fn took_down(&mut self, n: usize)
        requires { n ≤ length self.old.ways.down.held }
        ensures { self.new ≡ record self.old { ways = record self.old.ways { down = after self.old.ways.down (takes n) } } }
    {
        self.down.take(n);
    }

    /// No further byte comes that goes up.
    pub fn end_up(&mut self)
        ensures { self.new ≡ record self.old { ways = record self.old.ways { up = after self.old.ways.up ends } } }
    {
        self.up.end();
    }

    /// No further byte comes that goes down.
    pub fn end_down(&mut self)
        ensures { self.new ≡ record self.old { ways = record self.old.ways { down = after self.old.ways.down ends } } }
    {
        self.down.end();
    }

    /// The way up has ended, and no byte waits on it.
    pub fn up_done(&self) -> bool
        ensures { result ≡ is_done self.now.ways.up }
    {
        self.up.is_done()
    }

    /// The way down has ended, and no byte waits on it.
    pub fn down_done(&self) -> bool
        ensures { result ≡ is_done self.now.ways.down }
    {
        self.down.is_done()
    }
}
