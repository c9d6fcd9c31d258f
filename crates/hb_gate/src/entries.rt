//! What the world's calls on the link did.

ghost use Rattle.std.specs.Prelude.{◌≡◌, ◌≤◌, ◌++◌, length};
ghost use Rattle.hb_world.specs.declared.entry.Entry.TheVariants as e;
ghost use Rattle.hb_conn.specs.Observed.{data_unbegun, output};
ghost use Rattle.hb_gateway.specs.Gateway.{end_cause};
ghost use Rattle.hb_gateway.specs.Part.{entry, stopped};
ghost use Rattle.hb_gate.specs.Calls.{Enters, Went, FaresWith};
ghost use Rattle.hb_gate.specs.Observed.{wants_on, output_on};
ghost use Rattle.hb_gate.specs.Streams.{begun_counted, left_behind};

use crate::gate::Gate;
use crate::phase::Phase;
use hb_base::Cause;

impl Gate {
    /// The DATA of which the first octet goes next counts for its stream: where such DATA waits it stands in front.
    fn count_begun(&mut self)
        ensures { self.new ≡ record self.old { streams = begun_counted (data_unbegun self.old.conn) self.old.streams } }
    {
        let Some(first) = self.conn.unbegun() else {
            return;
        };
        let Some(stream) = self.streams.at(first.stream) else {
            return;
        };
        stream.begun = stream.begun.saturating_add(first.size as u64);
    }

    /// The first `n` bytes of the front header and of the connection's output were written.
    fn went(&mut self, n: usize)
        requires { n ≤ length (self.old.front ++ output self.old.conn) }
        ensures { self.new ≡ left_behind n self.old }
    {
        let front = self.front.bytes().len().min(n);
        self.front.took(front);
        if front < n {
            self.count_begun();
        }
        self.conn.wrote(n - front);
    }

    /// It is open.
    pub fn opened(&mut self)
        ensures { Enters (entry (e.Opened self.old.number)) self.old self.new }
    {
        if let Phase::Opening = self.phase {
            self.phase = Phase::Serving;
        }
    }

    /// These bytes came. What they complete is to be looked at.
    pub fn take_bytes(&mut self, b: &[u8])
        requires { length b.now ≤ wants_on self.old }
        ensures enters { Enters (entry (e.Came self.old.number b.now)) self.old self.new }
        ensures fares { FaresWith b.now self.old }
    {
        self.conn.take(b);
    }

    /// The first `n` bytes of the output were written.
    pub fn wrote(&mut self, n: usize)
        requires { n ≤ length (output_on self.old) }
        ensures { Went n self.old self.new }
    {
        if n == 0 {
            return;
        }
        match self.phase {
            Phase::Serving => self.went(n),
            Phase::Faulted(code) => {
                self.phase = Phase::Closing(Cause::ConnFault(code));
                self.went(n);
            }
            _ => {}
        }
    }

    /// Why it is closed whose gateway sends no more: it is done where no stream is open.
    fn end_cause(&self) -> Cause
        ensures { result ≡ end_cause self.now.conn }
    {
        if self.conn.streams_open() == 0 {
            Cause::Done
        } else {
            Cause::PeerGone
        }
    }

    /// The gateway sends no more: each tunnel is to be told that.
    pub fn ended(&mut self)
        ensures { Enters (entry (e.Ended self.old.number)) self.old self.new }
    {
        let cause = self.end_cause();
        self.phase = Phase::Closing(cause);
        self.end_all(Cause::PeerGone);
    }

    /// A call on it failed: so each tunnel is.
    pub fn broke(&mut self)
        ensures { Enters (entry (e.Broke self.old.number)) self.old self.new }
    {
        let cause = self.phase.break_cause();
        self.phase = self.phase.broken();
        self.end_all(cause);
    }

    /// The run ends for this cause, and each tunnel with it.
    pub fn stopped(&mut self, cause: Cause)
        ensures { Enters (stopped cause) self.old self.new }
    {
        self.phase = self.phase.stopped(cause);
        self.end_all(cause);
    }
}
