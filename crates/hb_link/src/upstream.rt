//! What comes and goes on the upstream of a stream.

ghost use Rattle.std.specs.Prelude.{◌≡◌, ◌≤◌, ◌&&◌, ℕ, true, [], length, Some};
ghost use Rattle.hb_base.specs.declared.door.Why.{Why};
ghost use Rattle.hb_base.specs.declared.target.Target.{Target};
ghost use Rattle.hb_world.specs.declared.entry.Entry.TheVariants as e;
ghost use Rattle.hb_tunnel.specs.Way.{IsFront};
ghost use Rattle.hb_link.specs.Calls.{UpEnters, UpGoes, UpWants, UpHolds};
ghost use Rattle.hb_link.specs.Observed.{up_wants_on, up_held_on};
ghost use Rattle.hb_link.specs.Putting.{count_first, conn_first};
ghost use Rattle.hb_link.specs.Rousing.{Rouses, roused_on};
ghost use Rattle.hb_conn.specs.Observed.{own_side_open};

use crate::link::Link;
use crate::notes::Notes;
use crate::tunnel::Stage;
use hb_base::Cause;
use hb_conn::Conn;
use hb_tunnel::DOWN_SIZE;

/// Puts as many of these bytes in one DATA frame as may go now, where some may and this end's side is open, and says how many.
fn put_first(conn: &mut Conn, may: bool, stream: u32, b: &[u8]) -> usize
    ensures count { result ≡ count_first (may && own_side_open conn.old stream) conn.old stream b.now }
    ensures after { conn.new ≡ conn_first (may && own_side_open conn.old stream) conn.old stream b.now }
{
    if may && conn.sides(stream).own {
        conn.put_some(stream, b)
    } else {
        0
    }
}

impl Link {
    /// The dial of a stream's target gave this link.
    pub fn dialled(&mut self, stream: u32, link: u64)
        ensures enters { (to : Target) (why : Why) → UpEnters stream (e.Dialled link to why) self.old (Some []) self.new (Some []) }
        ensures rouses { Rouses self.old self.new }
        ensures here { roused_on self.new stream ≡ true }
    {
        self.roused.add(stream);
        let Some(tunnel) = self.tunnels.at(stream) else {
            return;
        };
        tunnel.stage = Stage::Opening;
        tunnel.up = link;
    }

    /// The upstream of a stream is open: 200 is put.
    pub fn up_opened<N: Notes>(&mut self, stream: u32, notes: &mut N)
        ensures enters { (u : ℕ) → UpEnters stream (e.Opened u) self.old (N.told notes.old) self.new (N.told notes.new) }
        ensures rouses { Rouses self.old self.new }
    {
        if !self.conn.sides(stream).own {
            return;
        }
        let Some(tunnel) = self.tunnels.at(stream) else {
            return;
        };
        tunnel.open();
        self.roused.add(stream);
        self.conn.put_status(stream, 200, false);
        notes.verdict(self.number, stream, 200, &self.peer, Some(tunnel.target));
    }

    /// How many bytes may be read of it now.
    pub fn up_wants(&self, stream: u32) -> usize
        ensures value { result ≡ up_wants_on self.now stream }
        ensures machine { UpWants self.now stream result }
    {
        match self.tunnels.get(stream) {
            Some(tunnel) => tunnel.up_wants(),
            None => 0,
        }
    }

    /// These bytes came from it.
    pub fn up_bytes(&mut self, stream: u32, b: &[u8])
        requires { length b.now ≤ up_wants_on self.old stream }
        ensures enters { (u : ℕ) → UpEnters stream (e.Came u b.now) self.old (Some []) self.new (Some []) }
        ensures rouses { Rouses self.old self.new }
    {
        if b.is_empty() {
            return;
        }
        let serves = self.phase.is_serving();
        let Some(tunnel) = self.tunnels.at(stream) else {
            return;
        };
        let none_waits = tunnel.ways.room_down() == DOWN_SIZE;
        let n = put_first(&mut self.conn, serves && none_waits, stream, b);
        tunnel.ways.push_down(&b[n..]);
        self.turn.took(stream, n);
    }

    /// A front part of the bytes that wait to be written to it; none only where none waits.
    pub fn up_output(&self, stream: u32) -> &[u8]
        ensures front { IsFront result.now (up_held_on self.now stream) }
        ensures machine { UpHolds self.now stream (up_held_on self.now stream) }
    {
        match self.tunnels.get(stream) {
            Some(tunnel) => tunnel.up_output(),
            None => b"",
        }
    }

    /// The dial of a stream's target failed.
    pub fn dial_failed<N: Notes>(&mut self, stream: u32, notes: &mut N)
        ensures enters { (to : Target) (why : Why)
            → UpEnters stream (e.DialFailed to why) self.old (N.told notes.old) self.new (N.told notes.new) }
        ensures rouses { Rouses self.old self.new }
    {
        self.end_tunnel(stream, Cause::UpFault);
        self.settle(notes);
    }

    /// It sends no more.
    pub fn up_ended<N: Notes>(&mut self, stream: u32, notes: &mut N)
        ensures enters { (u : ℕ) → UpEnters stream (e.Ended u) self.old (N.told notes.old) self.new (N.told notes.new) }
        ensures rouses { Rouses self.old self.new }
    {
        self.end_down(stream);
        self.settle(notes);
    }

    /// It failed to open, or a call on it failed.
    pub fn up_broke<N: Notes>(&mut self, stream: u32, notes: &mut N)
        ensures enters { (u : ℕ) → UpEnters stream (e.Broke u) self.old (N.told notes.old) self.new (N.told notes.new) }
        ensures rouses { Rouses self.old self.new }
    {
        self.end_tunnel(stream, Cause::UpFault);
        self.settle(notes);
    }

    /// The first `n` bytes that waited were written to it. They are given back to the stream's window.
    pub fn up_wrote<N: Notes>(&mut self, stream: u32, n: usize, notes: &mut N)
        requires { n ≤ length (up_held_on self.old stream) }
        ensures goes { UpGoes stream n self.old (N.told notes.old) self.new (N.told notes.new) }
        ensures rouses { Rouses self.old self.new }
    {
        if n == 0 {
            return;
        }
        let Some(tunnel) = self.tunnels.at(stream) else {
            return;
        };
        tunnel.ways.took_up(n);
        tunnel.went_up = tunnel.went_up.saturating_add(n as u64);
        let most = self.conn.creditable(stream);
        let given = n.min(most as usize) as u32;
        self.conn.credit(stream, given);
        if tunnel.is_done(&self.conn, stream) {
            tunnel.stage = Stage::Over(Cause::Done);
            notes.end(
                self.number,
                stream,
                Cause::Done,
                tunnel.went_up,
                tunnel.went_down,
            );
        }
    }
}
