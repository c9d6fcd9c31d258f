//! WINDOW_UPDATE (RFC 9113 section 6.9).

ghost use Rattle.std.specs.Prelude.{◌≡◌, ◌+◌, ◌≤◌, length};
ghost use Rattle.hb_outgoing.specs.Waiting.{octets_of, size};
ghost use Rattle.hb_flow.specs.Sizes.{unbegun_on};
ghost use Rattle.hb_conn.specs.Windows.{unbegun, connection_grows, stream_grows, on_window};
ghost use Rattle.hb_conn.specs.Outcome.{Does, Gives};
ghost use Rattle.std.specs.FinMap.{get};

use crate::found::Found;
use crate::machine::Core;
use hb_frames::numbers::{FLOW_CONTROL_ERROR, PROTOCOL_ERROR, WINDOW_UPDATE};
use hb_outgoing::Unbegun;
use hb_streams::Step;

impl Core {
    /// The DATA with payload that is put and hasn't begun.
    pub(crate) fn unbegun(&self) -> Unbegun
        ensures { result ≡ unbegun self.now }
    {
        match self.out.unbegun() {
            None => Unbegun { stream: 0, size: 0 },
            Some(unbegun) => unbegun,
        }
    }

    /// The octets of it that are the stream's.
    fn unbegun_on(&self, stream: u32) -> u32
        ensures { result ≡ unbegun_on (unbegun self.now).stream (unbegun self.now).size stream }
    {
        let unbegun = self.unbegun();
        if stream == unbegun.stream {
            unbegun.size
        } else {
            0
        }
    }

    fn grow(&mut self, n: u32) -> Found
        requires room { length (octets_of self.old.out) + 17 ≤ size }
        ensures { Gives (connection_grows self.old n) self.new result }
    {
        let size = self.unbegun().size;
        match self.flow.grant(n, size) {
            Ok(()) => Found::Silent,
            Err(_) => self.fail(FLOW_CONTROL_ERROR),
        }
    }

    fn grow_stream(&mut self, stream: u32, n: u32) -> Found
        ensures { Gives (stream_grows self.old stream n (get self.old.flow.streams stream)) self.new result }
    {
        let size = self.unbegun_on(stream);
        match self.flow.grant_stream(stream, n, size) {
            Ok(()) => Found::Silent,
            Err(_) => self.break_stream(stream, FLOW_CONTROL_ERROR),
        }
    }

    pub(crate) fn on_window(&mut self, stream: u32, n: u32) -> Found
        requires room { length (octets_of self.old.out) + 17 ≤ size }
        ensures { Gives (on_window self.old stream n) self.new result }
    {
        if stream == 0 {
            return self.grow(n);
        }
        match self.streams.answer(WINDOW_UPDATE, stream) {
            Err(fault) => self.refuse(fault),
            Ok(Step::Goes) if n == 0 => self.break_stream(stream, PROTOCOL_ERROR),
            Ok(Step::Goes) => self.grow_stream(stream, n),
            Ok(_) => Found::Silent,
        }
    }
}
