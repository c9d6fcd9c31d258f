//! What may be put on the streams of tunnels that live.

ghost use Rattle.std.specs.Prelude.{◌≡◌, ℕ, ◌+◌};
ghost use Rattle.hb_link.specs.Putting.{count_here, bytes_put, conn_bytes, data_seen, may_finish};
ghost use Rattle.hb_link.specs.Putting.{end_counted, conn_finished, lives_in, PutsBelow};
ghost use Rattle.hb_link.specs.Rousing.{Rouses};
ghost use Rattle.hb_link.specs.Settling.{MayPut, AlwaysSettles};
ghost use Rattle.hb_link.specs.Shows.{Shows};

use crate::link::Link;
use crate::notes::Notes;
use crate::tunnel::{Stage, Tunnel};
use hb_base::Cause;
use hb_conn::Conn;

/// DATA with payload of the stream waits to be written.
fn data_waits(conn: &Conn, stream: u32) -> bool
    ensures { result ≡ data_seen conn.now stream }
{
    let unbegun = match conn.unbegun() {
        Some(first) => first.stream == stream,
        None => false,
    };
    unbegun || conn.data_begun(stream)
}

impl Tunnel {
    /// It lives.
    fn lives(&self) -> bool
        ensures { result ≡ lives_in self.now.stage }
    {
        matches!(self.stage, Stage::Live)
    }

    /// Puts as many of the bytes that wait in one DATA frame as may go, and says how many.
    fn put_bytes(&mut self, conn: &mut Conn, stream: u32) -> usize
        ensures count { result ≡ count_here conn.old stream self.old }
        ensures tunnel { self.new ≡ bytes_put conn.old stream self.old }
        ensures conn { conn.new ≡ conn_bytes conn.old stream self.old }
    {
        if conn.output().is_empty() && conn.sides(stream).own {
            let count = conn.put_some(stream, self.ways.held_down());
            self.ways.took_down(count);
            count
        } else {
            0
        }
    }

    /// END_STREAM may go: all that came of the upstream has gone.
    fn may_finish(&self, conn: &Conn, stream: u32) -> bool
        ensures { result ≡ may_finish conn.now stream self.now }
    {
        self.ways.down_done()
            && !self.end_put
            && conn.sides(stream).own
            && !data_waits(conn, stream)
    }

    /// Puts END_STREAM where it may go.
    fn finish(&mut self, conn: &mut Conn, stream: u32)
        ensures tunnel { self.new ≡ end_counted conn.old stream self.old }
        ensures conn { conn.new ≡ conn_finished conn.old stream self.old }
    {
        if self.may_finish(conn, stream) {
            conn.put_end(stream);
            self.end_put = true;
        }
    }
}

impl Link {
    /// What may be put of the tunnel on the stream, and it is over where both sides ended and all went through.
    fn put_on<N: Notes>(&mut self, stream: u32, notes: &mut N)
        ensures settles { (from : ℕ)
            → AlwaysSettles (PutsBelow from stream) (PutsBelow from (stream + 1)) self.old (N.told notes.old) self.new (N.told notes.new) }
        ensures rouses { Rouses self.old self.new }
    {
        let Some(tunnel) = self.tunnels.at(stream) else {
            return;
        };
        if !tunnel.lives() {
            return;
        }
        let count = tunnel.put_bytes(&mut self.conn, stream);
        self.turn.took(stream, count);
        self.roused.went(stream, count);
        tunnel.finish(&mut self.conn, stream);
        if tunnel.is_done(&self.conn, stream) {
            tunnel.stage = Stage::Over(Cause::Done);
            notes.end(
                self.number,
                stream,
                Cause::Done,
                tunnel.went_up,
                tunnel.went_down,
            );
        }
    }

    /// What may be put of the tunnel that bytes were put of last, where one alone may have something to put: it is mostly that one.
    fn put_again<N: Notes>(&mut self, notes: &mut N)
        ensures settles { AlwaysSettles (PutsBelow 0 0) (PutsBelow 0 0) self.old (N.told notes.old) self.new (N.told notes.new) }
        ensures rouses { Rouses self.old self.new }
    {
        if self.tunnels.counts().puts == 1 {
            let last = self.turn.last();
            self.put_on(last, notes);
        }
    }

    /// What may be put of each tunnel behind the one that bytes were put of last, by rising stream, until something waits to be written.
    fn put_behind<N: Notes>(&mut self, notes: &mut N)
        ensures settles { AlwaysSettles (PutsBelow 0 0) (PutsBelow 0 0) self.old (N.told notes.old) self.new (N.told notes.new) }
        ensures rouses { Rouses self.old self.new }
    {
        let behind = self.turn.last().saturating_add(1);
        let mut from = self
            .tunnels
            .first_from(self.tunnels.starts().puts.max(behind));
        while let Some(stream) = from {
            if !self.conn.output().is_empty() {
                return;
            }
            self.put_on(stream, notes);
            from = self.tunnels.first_behind(stream);
        }
    }

    /// Bytes of one tunnel, or END_STREAMs, by turns, where any may go.
    fn put_in_turn<N: Notes>(&mut self, notes: &mut N)
        ensures settles { AlwaysSettles (PutsBelow 0 0) (PutsBelow 0 0) self.old (N.told notes.old) self.new (N.told notes.new) }
        ensures rouses { Rouses self.old self.new }
    {
        self.put_again(notes);
        self.put_behind(notes);
    }

    /// As many of the bytes that wait go in DATA as may, END_STREAM goes where it may, and a tunnel is over of which both sides ended
    /// and all went through: by turns, and then by rising stream. Where something waits to be written by then, and no end may follow, no
    /// tunnel needs another look, nor once of none something may be put.
    pub(crate) fn put_all<N: Notes>(&mut self, notes: &mut N)
        ensures settles { AlwaysSettles MayPut Shows self.old (N.told notes.old) self.new (N.told notes.new) }
        ensures rouses { Rouses self.old self.new }
    {
        if !self.phase.is_serving() {
            return;
        }
        if self.tunnels.counts().puts == 0 {
            return;
        }
        self.put_in_turn(notes);
        if !self.conn.output().is_empty() && self.tunnels.counts().ends == 0 {
            return;
        }
        let mut from = self.tunnels.first_from(self.tunnels.starts().puts);
        while let Some(stream) = from {
            self.put_on(stream, notes);
            if self.tunnels.counts().puts == 0 {
                return;
            }
            from = self.tunnels.first_behind(stream);
        }
    }
}
