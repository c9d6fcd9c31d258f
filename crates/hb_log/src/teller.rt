//! What hands lines to a log.

ghost use Rattle.std.specs.Prelude.{◌≡◌, None};
ghost use Rattle.std.specs.Io.KnownBytes.{Appends};
ghost use Rattle.hb_log.specs.Known.{listen_fact, after_accept, dial_fact, party_of, after_dial, finish_fact, after_finish};
ghost use Rattle.hb_log.specs.Known.{close_fact, after_close, tick_fact, after_tick, knows_nothing};
ghost use Rattle.hb_log.specs.Told.{Tells, TellsBirth};

use crate::fact::Fact;
use crate::known::Known;
use crate::line::line_of;
use crate::log::Log;
use hb_base::{Cause, Door, Target, Why};
use hb_world::{Born, Finished, Listened};
use std::alloc::Global;

/// Hands the lines to a log that calls of a world give.
#[derive(Drop)]
pub(crate) struct Teller<L> {
    alloc: Global,
    known: Known,
    log: L,
    /// How often memory lacked, for a line or for what a link is.
    lacks: u64,
}

impl<L: Log> Teller<L> {
    /// Nothing was told.
    pub fn over(alloc: Global, log: L) -> Teller<L>
        ensures known { result.known ≡ knows_nothing }
        ensures log { result.log ≡ log }
        ensures lacks { result.lacks ≡ 0 }
    {
        Teller {
            alloc,
            known: Known::new(alloc),
            log,
            lacks: 0,
        }
    }

    /// The log.
    pub fn log(&self) -> &L
        ensures { result.now ≡ self.now.log }
    {
        &self.log
    }

    /// How often memory lacked.
    pub fn lacks(&self) -> u64
        ensures { result ≡ self.now.lacks }
    {
        self.lacks
    }

    /// Hands a line on: that of a way beside those of notes.
    fn hand(&mut self, fact: Fact, line: &str)
        ensures handed { Appends (L.handed self.old.log) (L.handed self.new.log) line.now }
        ensures known { self.new.known ≡ self.old.known }
        ensures lacks { self.new.lacks ≡ self.old.lacks }
    {
        match fact {
            Fact::Way { .. } => self.log.beside(line),
            _ => self.log.line(line),
        }
    }

    /// Tells a fact.
    fn tell(&mut self, fact: Option<Fact>)
        ensures { Tells L.handed self.old self.new self.old.known fact }
    {
        let Some(fact) = fact else {
            return;
        };
        match line_of(self.alloc, fact) {
            Ok(line) => self.hand(fact, line.as_str()),
            Err(_) => self.lacks = self.lacks.saturating_add(1),
        }
    }

    /// A door listens, or doesn't.
    pub fn listened(&mut self, at: Target, door: Door, listened: Listened)
        ensures { Tells L.handed self.old self.new self.old.known (listen_fact door at listened) }
    {
        if matches!(listened, Listened::Listening) {
            self.tell(Some(Fact::Listens { door, at }));
        }
    }

    /// A link is accepted, or none is.
    pub fn accepted(&mut self, door: Door, born: Born)
        ensures { TellsBirth L.handed self.old self.new (after_accept door born self.old.known) None born }
    {
        if self.known.accept(door, born).is_err() {
            self.lacks = self.lacks.saturating_add(1);
        }
    }

    /// A link is dialled, or none is.
    pub fn dialled(&mut self, to: Target, why: Why, born: Born)
        ensures { TellsBirth L.handed self.old self.new (after_dial (party_of why) born self.old.known)
            (dial_fact to why born self.old.known) born }
    {
        match self.known.dial(to, why, born) {
            Ok(fact) => self.tell(fact),
            Err(_) => self.lacks = self.lacks.saturating_add(1),
        }
    }

    /// A dialled link is open, or isn't.
    pub fn finished(&mut self, link: u64, finished: Finished)
        ensures { Tells L.handed self.old self.new (after_finish link finished self.old.known)
            (finish_fact link finished self.old.known) }
    {
        let fact = self.known.finish(link, finished);
        self.tell(fact);
    }

    /// A link is closed.
    pub fn closed(&mut self, link: u64, cause: Cause)
        ensures { Tells L.handed self.old self.new (after_close link cause self.old.known) (close_fact link cause self.old.known) }
    {
        let fact = self.known.close(link, cause);
        self.tell(fact);
    }

    /// Time passed.
    pub fn ticked(&mut self)
        ensures { Tells L.handed self.old self.new (after_tick self.old.known) (tick_fact self.old.known) }
    {
        let fact = self.known.tick();
        self.tell(fact);
    }
}
