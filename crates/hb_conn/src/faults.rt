//! Connection errors and stream errors (RFC 9113 section 5.4).

ghost use Rattle.std.specs.Prelude.{◌≡◌, ◌+◌, ◌≤◌, length, true};
ghost use Rattle.hb_outgoing.specs.Waiting.{octets_of, size};
ghost use Rattle.hb_conn.specs.Faults.{faulted, is_active, withdrawn, released, given_up, cancelled, aborted, broken, refused};
ghost use Rattle.hb_conn.specs.Outcome.{Gives};

use crate::found::Found;
use crate::machine::Core;
use hb_base::Scope;
use hb_owed::Due;
use hb_streams::StreamFault;

impl Core {
    /// A connection error (RFC 9113 section 5.4.1).
    #[tactic(auto, unfolding(crate::specs::Faults::faulted))]
    pub(crate) fn fail(&mut self, code: u32) -> Found
        requires room { length (octets_of self.old.out) + 17 ≤ size }
        ensures told { Gives (faulted self.old code) self.new result }
        ensures over { self.new.over ≡ true }
    {
        self.out.take_back_all();
        self.owed.clear();
        self.over = true;
        let last = self.streams.last_of_peer();
        self.put_goaway(last, code);
        Found::Fault { code }
    }

    /// Resets the stream, where a side of it is open, and puts or owes RST_STREAM.
    #[tactic(auto, unfolding(crate::specs::Faults::aborted))]
    pub(crate) fn abort(&mut self, stream: u32, code: u32)
        ensures { self.new ≡ aborted self.old stream code }
    {
        self.cancel(stream);
        self.withdraw(stream);
        self.put_or_owe(stream, Due::Reset(code));
        self.release(stream);
        self.pay();
    }

    /// A stream error (RFC 9113 section 5.4.2).
    pub(crate) fn break_stream(&mut self, stream: u32, code: u32) -> Found
        ensures { Gives (broken self.old stream code) self.new result }
    {
        self.abort(stream, code);
        Found::Broken { stream, code }
    }

    /// The error of a frame that the state of its stream refuses.
    pub(crate) fn refuse(&mut self, fault: StreamFault) -> Found
        requires room { length (octets_of self.old.out) + 17 ≤ size }
        ensures { Gives (refused self.old fault) self.new result }
    {
        match fault.scope {
            Scope::Connection => self.fail(fault.code),
            Scope::Stream(stream) => self.break_stream(stream, fault.code),
        }
    }

    fn is_active(&self, stream: u32) -> bool
        ensures { result ≡ is_active self.now.streams stream }
    {
        let sides = self.streams.sides(stream);
        sides.own || sides.peer
    }

    fn cancel(&mut self, stream: u32)
        ensures { self.new ≡ cancelled self.old stream }
    {
        if self.is_active(stream) {
            self.streams.sent_reset(stream);
        }
    }

    /// Takes the stream's DATA back that hasn't begun, put or owed. The stream's own window goes with the stream.
    fn withdraw(&mut self, stream: u32)
        ensures { self.new ≡ withdrawn self.old stream }
    {
        let taken = self.out.take_back(stream);
        let _ = self.flow.grant(taken, 0);
        self.owed.take_back(stream);
    }

    /// Releases a stream of which no side is open: its windows, and its record of what is owed once that is put.
    pub(crate) fn release(&mut self, stream: u32)
        ensures { self.new ≡ released self.old stream }
    {
        if !self.is_active(stream) {
            self.flow.close(stream);
            self.owed.close(stream);
        }
    }

    pub(crate) fn give_up(&mut self, stream: u32)
        ensures { self.new ≡ given_up self.old stream }
    {
        self.withdraw(stream);
        self.release(stream);
        self.pay();
    }
}
