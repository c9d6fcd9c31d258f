//! How the link itself ends.

ghost use Rattle.std.specs.Prelude.{⊤, ◌≡◌, ◌==◌, if◌then◌else◌};
ghost use Rattle.hb_base.specs.declared.cause.Cause.TheVariants as why;
ghost use Rattle.hb_conn.specs.Observed.{streams_open};
ghost use Rattle.hb_world.specs.declared.entry.Entry.TheVariants as e;
ghost use Rattle.hb_inbound.specs.Part.{entry};
ghost use Rattle.hb_link.specs.Calls.{Enters, Stops};
ghost use Rattle.hb_link.specs.Marking.{Marks};
ghost use Rattle.hb_link.specs.Rousing.{Rouses};

use crate::link::Link;
use crate::notes::Notes;
use crate::phase::Phase;
use hb_base::Cause;

impl Link {
    /// Why a connection is closed whose peer sends no more: it is done where no stream is open.
    fn end_cause(&self) -> Cause
        ensures { result ≡ (if streams_open self.now.conn == 0 then why.Done else why.PeerGone) }
    {
        if self.conn.streams_open() == 0 {
            Cause::Done
        } else {
            Cause::PeerGone
        }
    }

    /// It is to be closed, since its peer sends no more.
    fn mark_ended(&mut self)
        ensures marks { Marks (λ a. ⊤) (entry (e.Ended self.old.number)) self.old self.new }
        ensures rouses { Rouses self.old self.new }
    {
        match self.phase {
            Phase::Fronting => self.phase = Phase::Closing(Cause::FrontFault(0)),
            Phase::Serving => self.end_with(Phase::Closing(self.end_cause()), Cause::PeerGone),
            _ => {}
        }
    }

    /// The peer sends no more.
    pub fn ended<N: Notes>(&mut self, notes: &mut N)
        ensures enters { Enters (e.Ended self.old.number) self.old (N.told notes.old) self.new (N.told notes.new) }
        ensures rouses { Rouses self.old self.new }
    {
        self.mark_ended();
        self.settle(notes);
    }

    /// It is to be closed, since a call on it failed. Behind a connection error that was its one write.
    fn mark_broken(&mut self)
        ensures marks { Marks (λ a. ⊤) (entry (e.Broke self.old.number)) self.old self.new }
        ensures rouses { Rouses self.old self.new }
    {
        match self.phase {
            Phase::Fronting => self.phase = Phase::Closing(Cause::Broken),
            Phase::Serving => self.end_with(Phase::Closing(Cause::Broken), Cause::PeerGone),
            Phase::Faulted(code) => self.phase = Phase::Closing(Cause::ConnFault(code)),
            _ => {}
        }
    }

    /// A call on the link failed.
    pub fn broke<N: Notes>(&mut self, notes: &mut N)
        ensures enters { Enters (e.Broke self.old.number) self.old (N.told notes.old) self.new (N.told notes.new) }
        ensures rouses { Rouses self.old self.new }
    {
        self.mark_broken();
        self.settle(notes);
    }

    /// The run ends for this cause.
    pub fn stopped<N: Notes>(&mut self, cause: Cause, notes: &mut N)
        ensures stops { Stops cause self.old (N.told notes.old) self.new (N.told notes.new) }
        ensures rouses { Rouses self.old self.new }
    {
        self.end_with(self.phase.stopped(cause), cause);
        self.settle(notes);
    }
}
