//! The world around another one.

ghost use Rattle.std.specs.Prelude.{◌≡◌, [], ℕ};
ghost use Rattle.hb_traced.specs.Known.{faults_at};
ghost use Rattle.hb_traced.specs.Traced.{trace_of};

use crate::answers::{
    finish_failed, finish_of, glance_failed, listen_failed, look_failed, look_of, read_failed,
    read_of, wait_failed, write_failed, write_of,
};
use crate::call::Call;
use crate::known::Known;
use hb_base::{Cause, Door, Target, Why};
use hb_world::{Born, Finished, Glanced, Listened, Looked, Read, Ready, Waited, World, Wrote};
use std::alloc::Global;

/// A world that makes each call of the world in it, answers what that answers, and tells its trace, be that world any.
///
/// The trace takes no memory, and nothing is done for it when the program runs. Kept are how many links were born, and for each that lives
/// how often calls on it failed; room for that is taken before a link is asked for, and where it lacks, or no number is left, memory is
/// wanting and no link is asked for. What a world that tells its trace may not answer isn't answered: a call on a link that doesn't live
/// balks, or finds it fine; a birth whose number isn't the next one fails, and the link that has it is closed unless it lives.
#[derive(Drop)]
pub struct Traced<W> {
    world: W,
    known: Known,
}

impl<W> Traced<W> {
    /// A world around another one, before any call.
    pub fn over(alloc: Global, world: W) -> Traced<W>
        ensures world { result.world ≡ world }
        ensures trace { trace_of result ≡ [] }
        ensures faults { (result.known.faults ≡ 0) × (result.known.birth_faults ≡ 0) × ((l : ℕ) → faults_at result.known.links l ≡ 0) }
    {
        Traced {
            world,
            known: Known::new(alloc),
        }
    }

    /// The world in it.
    pub fn world(&self) -> &W
        ensures { result.now ≡ self.now.world }
    {
        &self.world
    }
}

impl<W: World> Traced<W> {
    ghost use Rattle.hb_traced.specs.Answers.{numbered, HasNumber};

    /// What a birth answers. One whose number isn't the next one failed, and its link is closed unless it lives.
    fn numbered(&mut self, next: u64, born: Born) -> Born
        ensures answer { result ≡ numbered next born }
        ensures next { HasNumber next result }
        ensures known { self.new.known ≡ self.old.known }
        ensures script { (W.seen self.new.world).script ≡ (W.seen self.old.world).script }
    {
        let Born::New(link) = born else {
            return born;
        };
        if link == next {
            return born;
        }
        if !self.known.lives(link) {
            self.world.close(link, Cause::Broken);
        }
        Born::Failed
    }
}

impl<W: World> World for Traced<W> {
    ghost use Rattle.std.specs.Prelude.{Some};
    ghost use Rattle.hb_traced.specs.Traced.{trace_of, seen_of};

    ghost trace = { λ w. Some (trace_of w) };

    ghost seen = { λ w. seen_of W.seen w };

    fn listen(&mut self, at: Target, door: Door) -> Listened {
        let answer = self.world.listen(at, door);
        self.known
            .hear(&Call::Listen(at, door, answer), listen_failed(answer));
        answer
    }

    fn accept(&mut self, door: Door) -> Born {
        let Ok(next) = self.known.expect() else {
            return Born::NoMemory;
        };
        let born = self.world.accept(door);
        let answer = self.numbered(next, born);
        match answer {
            Born::New(link) => self.known.bear(link, &Call::Accept(door, answer)),
            Born::Balked | Born::NoMemory => self.known.miss(&Call::Accept(door, answer), false),
            Born::Failed => self.known.miss(&Call::Accept(door, answer), true),
        }
        answer
    }

    fn dial(&mut self, to: Target, why: Why) -> Born {
        let Ok(next) = self.known.expect() else {
            return Born::NoMemory;
        };
        let born = self.world.dial(to, why);
        let answer = self.numbered(next, born);
        match answer {
            Born::New(link) => self.known.bear(link, &Call::Dial(to, why, answer)),
            Born::Balked | Born::NoMemory => self.known.miss(&Call::Dial(to, why, answer), false),
            Born::Failed => self.known.miss(&Call::Dial(to, why, answer), true),
        }
        answer
    }

    fn finish(&mut self, link: u64) -> Finished {
        let answer = finish_of(self.known.lives(link), self.world.finish(link));
        self.known
            .hear_of(link, &Call::Finish(link, answer), finish_failed(answer));
        answer
    }

    fn read(&mut self, link: u64, into: &mut [u8]) -> Read {
        let answer = read_of(self.known.lives(link), self.world.read(link, into));
        self.known
            .hear_of(link, &Call::Read(link, into, answer), read_failed(answer));
        answer
    }

    fn write(&mut self, link: u64, from: &[u8]) -> Wrote {
        let answer = write_of(self.known.lives(link), self.world.write(link, from));
        self.known.hear_of(link, &Call::Write(link, from, answer), write_failed(answer));
        answer
    }

    fn look(&mut self, link: u64) -> Looked {
        let answer = look_of(self.known.lives(link), self.world.look(link));
        self.known
            .hear_of(link, &Call::Look(link, answer), look_failed(answer));
        answer
    }

    fn shut(&mut self, link: u64) {
        self.world.shut(link);
        self.known.hear(&Call::Shut(link), false);
    }

    fn close(&mut self, link: u64, cause: Cause) {
        self.world.close(link, cause);
        self.known.close(link, cause);
    }

    fn wait(&mut self, ready: &mut Ready) -> Waited {
        let answer = self.world.wait(ready);
        self.known
            .hear(&Call::Wait(ready, answer), wait_failed(answer));
        answer
    }

    fn glance(&mut self, ready: &mut Ready) -> Glanced {
        let answer = self.world.glance(ready);
        self.known
            .hear(&Call::Glance(ready, answer), glance_failed(answer));
        answer
    }
}
