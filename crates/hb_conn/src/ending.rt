//! How this end answers on a stream, and ends it (RFC 9113 section 5.1).

ghost use Rattle.std.specs.Prelude.{◌≡◌, ◌≤◌, ◌<◌, IsTrue};
ghost use Rattle.hb_streams.specs.Sides.{sides_of};
ghost use Rattle.hb_streams.specs.States.{state_of};
ghost use Rattle.hb_conn.specs.Ending.{own_ended, status_put, end_put, end_waits_on};

use crate::machine::Core;
use hb_owed::{Due, Status};

impl Core {
    /// This end's side of the stream ends.
    pub(crate) fn end_own(&mut self, stream: u32)
        requires { IsTrue (sides_of (state_of self.old.streams stream)).own }
        ensures { self.new ≡ own_ended self.old stream }
    {
        self.streams.sent_end(stream);
        self.release(stream);
    }

    pub(crate) fn put_status(&mut self, stream: u32, number: u16, end: bool)
        requires open { IsTrue (sides_of (state_of self.old.streams stream)).own }
        requires low { 100 ≤ number }
        requires high { number < 1000 }
        ensures { self.new ≡ status_put self.old stream (record { number = number; end = end }) }
    {
        self.put_or_owe(stream, Due::Status(Status { number, end }));
        if end {
            self.end_own(stream);
        }
    }

    pub(crate) fn put_end(&mut self, stream: u32)
        requires { IsTrue (sides_of (state_of self.old.streams stream)).own }
        ensures { self.new ≡ end_put self.old stream }
    {
        self.put_or_owe(stream, Due::End);
        self.end_own(stream);
    }

    pub(crate) fn end_waits(&self, stream: u32) -> bool
        ensures { result ≡ end_waits_on self.now stream }
    {
        self.out.end_waits(stream) || self.owed.ends(stream)
    }
}
