//! What is put on the stream of a tunnel, and what is given back to its window.

ghost use Rattle.std.specs.Prelude.{◌≡◌, ◌≤◌, length};
ghost use Rattle.hb_gate.specs.Calls.{Puts, MayPut, MayFinish, Finishes, Credits, IsThrough, IsDone};
ghost use Rattle.hb_gate.specs.Observed.{data_seen, can_finish};

use crate::gate::Gate;
use hb_conn::Conn;

/// DATA with payload of the stream waits to be written.
fn data_waits(conn: &Conn, stream: u32) -> bool
    ensures { result ≡ data_seen conn.now stream }
{
    let unbegun = match conn.unbegun() {
        Some(first) => first.stream == stream,
        None => false,
    };
    unbegun || conn.data_begun(stream)
}

impl Gate {
    /// Puts as many of these bytes in one DATA frame as may be, and says how many: none while anything waits to be written.
    pub fn put(&mut self, stream: u32, bytes: &[u8]) -> usize
        ensures puts { Puts stream bytes.now result self.old self.new }
        ensures most { result ≤ length bytes.now }
    {
        if !self.conn.output().is_empty() {
            return 0;
        }
        if !self.conn.sides(stream).own {
            return 0;
        }
        let count = self.conn.put_some(stream, bytes);
        self.turn.took(stream, count);
        count
    }

    /// Nothing waits to be written on the connection, so that bytes of a stream may be put.
    pub fn may_put(&self) -> bool
        ensures { MayPut self.now result }
    {
        self.conn.output().is_empty()
    }

    /// This end's side is open, and no DATA of the stream waits.
    fn can_finish(&self, stream: u32) -> bool
        ensures { result ≡ can_finish self.now.conn stream }
    {
        self.conn.sides(stream).own && !data_waits(&self.conn, stream)
    }

    /// Whether END_STREAM may be put: this end's side is open, and no DATA of the stream waits.
    pub fn may_finish(&self, stream: u32) -> bool
        ensures { MayFinish stream self.now result }
    {
        self.can_finish(stream)
    }

    /// Puts END_STREAM, where it may be.
    pub fn finish(&mut self, stream: u32)
        ensures { Finishes stream self.old self.new }
    {
        if self.can_finish(stream) {
            self.conn.put_end(stream);
        }
    }

    /// So many bytes that came on the stream were written to its captured link: they are given back to its window.
    pub fn credit(&mut self, stream: u32, n: u64)
        ensures { Credits stream n self.old self.new }
    {
        let creditable = self.conn.creditable(stream);
        let count = n.min(u64::from(creditable)) as u32;
        self.conn.credit(stream, count);
    }

    /// Whether both sides of the stream ended, and this end's END_STREAM went, whole.
    pub fn is_through(&self, stream: u32) -> bool
        ensures { IsThrough stream self.now result }
    {
        let sides = self.conn.sides(stream);
        !sides.own && !sides.peer && !self.conn.end_waits(stream)
    }

    /// The tunnel on the stream is done. How many of its bytes went.
    pub fn leave(&mut self, stream: u32) -> u64
        ensures { IsDone stream result self.old self.new }
    {
        match self.streams.remove(stream) {
            Some(gone) => gone.begun,
            None => 0,
        }
    }

    /// The stream whose turn it is: the least behind that on which bytes were put last. `None` where there is none behind it.
    pub fn first_in_turn(&self) -> Option<u32> {
        self.first_behind(self.turn.last())
    }
}
