//! A world that tells a log.

ghost use Rattle.std.specs.Prelude.{◌≡◌, ◌<◌, None, length};
ghost use Rattle.hb_world.specs.Answers.{listen_failed, birth_failed, finish_failed, read_failed, write_failed, look_failed};
ghost use Rattle.hb_world.specs.Answers.{wait_failed, glance_failed, HasNextNumber, ReadsWithin, WritesWithin};
ghost use Rattle.hb_world.specs.Answers.{FinishesLiving, ReadsLiving, WritesLiving, LooksLiving};
ghost use Rattle.hb_world.specs.Calls.{with_entries, with_shut, with_closed, listen_entries, accept_entries, dial_entries, finish_entries};
ghost use Rattle.hb_world.specs.Calls.{read_entries, write_entries, look_entries, wait_entries, glance_entries};
ghost use Rattle.hb_world.specs.Seen.{CountsUp, Stays, StaysButWhole, StaysButBirths, StaysButLink};
ghost use Rattle.hb_log.specs.Known.{listen_fact, after_accept, dial_fact, party_of, after_dial, finish_fact, after_finish};
ghost use Rattle.hb_log.specs.Known.{close_fact, after_close, knows_nothing};
ghost use Rattle.hb_log.specs.Told.{Tells, TellsBirth, TellsTick, wait_ticks, glance_ticks};

use crate::log::Log;
use crate::teller::Teller;
use hb_base::{Cause, Door, Target, Why};
use hb_world::{Born, Finished, Glanced, Listened, Looked, Read, Ready, Waited, World, Wrote};
use std::alloc::Global;

/// A world that makes each call of the world in it, answers what that answers, and hands a line to a log of what whoever runs the program
/// wants to know: doors that listen, links to the control plane and to gateways, and links of doors that are closed for another cause
/// than `Done` or `Stopped`. It knows what those links are that live, and takes memory for that and for a line; where memory lacks it
/// tells nothing, and counts that.
#[derive(Drop)]
pub struct LoggedWorld<W, L> {
    world: W,
    teller: Teller<L>,
}

impl<W, L: Log> LoggedWorld<W, L> {
    /// A world around another one, before any call.
    pub fn over(alloc: Global, world: W, log: L) -> LoggedWorld<W, L>
        ensures world { result.world ≡ world }
        ensures known { result.teller.known ≡ knows_nothing }
        ensures log { result.teller.log ≡ log }
        ensures lacks { result.teller.lacks ≡ 0 }
    {
        LoggedWorld {
            world,
            teller: Teller::over(alloc, log),
        }
    }

    /// The world in it.
    pub fn world(&self) -> &W
        ensures { result.now ≡ self.now.world }
    {
        &self.world
    }

    /// The log.
    pub fn log(&self) -> &L
        ensures { result.now ≡ self.now.teller.log }
    {
        self.teller.log()
    }

    /// How often memory lacked, for a line or for what a link is.
    pub fn lacks(&self) -> u64
        ensures { result ≡ self.now.teller.lacks }
    {
        self.teller.lacks()
    }
}

impl<W: World, L: Log> World for LoggedWorld<W, L> {
    ghost trace = { λ w. W.trace w.world };

    ghost seen = { λ w. W.seen w.world };

    fn listen(&mut self, at: Target, door: Door) -> Listened
        ensures adds { W.trace self.new.world ≡ with_entries (listen_entries door at result) (W.trace self.old.world) }
        ensures counts { CountsUp (W.seen self.old.world).faults (W.seen self.new.world).faults (listen_failed result) }
        ensures stays { StaysButWhole (W.seen self.old.world) (W.seen self.new.world) }
        ensures told { Tells L.handed self.old.teller self.new.teller self.old.teller.known (listen_fact door at result) }
    {
        let listened = self.world.listen(at, door);
        self.teller.listened(at, door, listened);
        listened
    }

    fn accept(&mut self, door: Door) -> Born
        ensures adds { W.trace self.new.world ≡ with_entries (accept_entries door result) (W.trace self.old.world) }
        ensures number { HasNextNumber (W.trace self.old.world) result }
        ensures counts { CountsUp (W.seen self.old.world).birth_faults (W.seen self.new.world).birth_faults (birth_failed result) }
        ensures stays { StaysButBirths (W.seen self.old.world) (W.seen self.new.world) }
        ensures told { TellsBirth L.handed self.old.teller self.new.teller (after_accept door result self.old.teller.known) None result }
    {
        let born = self.world.accept(door);
        self.teller.accepted(door, born);
        born
    }

    fn dial(&mut self, to: Target, why: Why) -> Born
        ensures adds { W.trace self.new.world ≡ with_entries (dial_entries to why result) (W.trace self.old.world) }
        ensures number { HasNextNumber (W.trace self.old.world) result }
        ensures moves { ¬ (result ≡ Born.Balked) }
        ensures counts { CountsUp (W.seen self.old.world).birth_faults (W.seen self.new.world).birth_faults (birth_failed result) }
        ensures stays { StaysButBirths (W.seen self.old.world) (W.seen self.new.world) }
        ensures told { TellsBirth L.handed self.old.teller self.new.teller (after_dial (party_of why) result self.old.teller.known)
            (dial_fact to why result self.old.teller.known) result }
    {
        let born = self.world.dial(to, why);
        self.teller.dialled(to, why, born);
        born
    }

    fn finish(&mut self, link: u64) -> Finished
        ensures adds { W.trace self.new.world ≡ with_entries (finish_entries link result) (W.trace self.old.world) }
        ensures living { FinishesLiving link (W.trace self.old.world) result }
        ensures counts { CountsUp ((W.seen self.old.world).link_faults link) ((W.seen self.new.world).link_faults link)
            (finish_failed result) }
        ensures stays { StaysButLink link (W.seen self.old.world) (W.seen self.new.world) }
        ensures told { Tells L.handed self.old.teller self.new.teller (after_finish link result self.old.teller.known)
            (finish_fact link result self.old.teller.known) }
    {
        let finished = self.world.finish(link);
        self.teller.finished(link, finished);
        finished
    }

    fn read(&mut self, link: u64, into: &mut [u8]) -> Read
        requires { 0 < length into.old }
        ensures adds { W.trace self.new.world ≡ with_entries (read_entries link into.new result) (W.trace self.old.world) }
        ensures within { ReadsWithin into.new result }
        ensures living { ReadsLiving link (W.trace self.old.world) result }
        ensures counts { CountsUp ((W.seen self.old.world).link_faults link) ((W.seen self.new.world).link_faults link)
            (read_failed result) }
        ensures stays { StaysButLink link (W.seen self.old.world) (W.seen self.new.world) }
        ensures told { self.new.teller ≡ self.old.teller }
    {
        self.world.read(link, into)
    }

    fn write(&mut self, link: u64, from: &[u8]) -> Wrote
        requires { 0 < length from.now }
        ensures adds { W.trace self.new.world ≡ with_entries (write_entries link from.now result) (W.trace self.old.world) }
        ensures within { WritesWithin from.now result }
        ensures living { WritesLiving link (W.trace self.old.world) result }
        ensures counts { CountsUp ((W.seen self.old.world).link_faults link) ((W.seen self.new.world).link_faults link)
            (write_failed result) }
        ensures stays { StaysButLink link (W.seen self.old.world) (W.seen self.new.world) }
        ensures told { self.new.teller ≡ self.old.teller }
    {
        self.world.write(link, from)
    }

    fn look(&mut self, link: u64) -> Looked
        ensures adds { W.trace self.new.world ≡ with_entries (look_entries link result) (W.trace self.old.world) }
        ensures living { LooksLiving link (W.trace self.old.world) result }
        ensures counts { CountsUp ((W.seen self.old.world).link_faults link) ((W.seen self.new.world).link_faults link)
            (look_failed result) }
        ensures stays { StaysButLink link (W.seen self.old.world) (W.seen self.new.world) }
        ensures told { self.new.teller ≡ self.old.teller }
    {
        self.world.look(link)
    }

    fn shut(&mut self, link: u64)
        ensures adds { W.trace self.new.world ≡ with_shut link (W.trace self.old.world) }
        ensures stays { Stays (W.seen self.old.world) (W.seen self.new.world) }
        ensures told { self.new.teller ≡ self.old.teller }
    {
        self.world.shut(link);
    }

    fn close(&mut self, link: u64, cause: Cause)
        ensures adds { W.trace self.new.world ≡ with_closed link cause (W.trace self.old.world) }
        ensures stays { StaysButLink link (W.seen self.old.world) (W.seen self.new.world) }
        ensures told { Tells L.handed self.old.teller self.new.teller (after_close link cause self.old.teller.known)
            (close_fact link cause self.old.teller.known) }
    {
        self.world.close(link, cause);
        self.teller.closed(link, cause);
    }

    fn wait(&mut self, ready: &mut Ready) -> Waited
        ensures adds { W.trace self.new.world ≡ with_entries (wait_entries ready.new result) (W.trace self.old.world) }
        ensures counts { CountsUp (W.seen self.old.world).faults (W.seen self.new.world).faults (wait_failed result) }
        ensures stays { StaysButWhole (W.seen self.old.world) (W.seen self.new.world) }
        ensures told { TellsTick L.handed self.old.teller self.new.teller (wait_ticks result) }
    {
        let waited = self.world.wait(ready);
        if matches!(waited, Waited::Tick) {
            self.teller.ticked();
        }
        waited
    }

    fn glance(&mut self, ready: &mut Ready) -> Glanced
        ensures adds { W.trace self.new.world ≡ with_entries (glance_entries ready.new result) (W.trace self.old.world) }
        ensures counts { CountsUp (W.seen self.old.world).faults (W.seen self.new.world).faults (glance_failed result) }
        ensures stays { StaysButWhole (W.seen self.old.world) (W.seen self.new.world) }
        ensures told { TellsTick L.handed self.old.teller self.new.teller (glance_ticks result) }
    {
        let glanced = self.world.glance(ready);
        if matches!(glanced, Glanced::Tick) {
            self.teller.ticked();
        }
        glanced
    }
}
