//! A world whose links are seen.

ghost use Rattle.std.specs.Prelude.{◌≡◌};

use crate::seen::{Part, Sight};
use hb_base::{Cause, Door, Target, Why};
use hb_world::{Born, Finished, Glanced, Listened, Looked, Read, Ready, Waited, World, Wrote};

/// A world that makes each call of the world in it, and tells what is born, read, written and closed, where that is to be seen.
#[derive(Drop)]
pub struct WatchedWorld<W> {
    world: W,
    sight: Option<Sight>,
}

impl<W> WatchedWorld<W> {
    /// A world around another one, before any call.
    pub fn over(world: W, sight: Option<Sight>) -> WatchedWorld<W>
        ensures world { result.world ≡ world }
        ensures sight { result.sight ≡ sight }
    {
        WatchedWorld { world, sight }
    }

    fn born(&self, born: Born, part: Part) {
        if let (Some(sight), Born::New(link)) = (&self.sight, born) {
            sight.born(link, part);
        }
    }

    fn read_of(&self, link: u64, read: Read) {
        if let (Some(sight), Read::Got(count)) = (&self.sight, read) {
            sight.read(link, count);
        }
    }

    fn wrote_to(&self, link: u64, wrote: Wrote) {
        if let (Some(sight), Wrote::Took(count)) = (&self.sight, wrote) {
            sight.wrote(link, count);
        }
    }
}

impl<W: World> World for WatchedWorld<W> {
    ghost trace = { λ w. W.trace w.world };

    ghost seen = { λ w. W.seen w.world };

    fn listen(&mut self, at: Target, door: Door) -> Listened {
        self.world.listen(at, door)
    }

    fn accept(&mut self, door: Door) -> Born {
        let born = self.world.accept(door);
        self.born(born, Part::At(door));
        born
    }

    fn dial(&mut self, to: Target, why: Why) -> Born {
        let born = self.world.dial(to, why);
        self.born(born, Part::To(to, why));
        born
    }

    fn finish(&mut self, link: u64) -> Finished {
        self.world.finish(link)
    }

    fn read(&mut self, link: u64, into: &mut [u8]) -> Read {
        let read = self.world.read(link, into);
        self.read_of(link, read);
        read
    }

    fn write(&mut self, link: u64, from: &[u8]) -> Wrote {
        let wrote = self.world.write(link, from);
        self.wrote_to(link, wrote);
        wrote
    }

    fn look(&mut self, link: u64) -> Looked {
        self.world.look(link)
    }

    fn shut(&mut self, link: u64) {
        self.world.shut(link);
    }

    fn close(&mut self, link: u64, cause: Cause) {
        self.world.close(link, cause);
        if let Some(sight) = &self.sight {
            sight.closed(link);
        }
    }

    fn wait(&mut self, ready: &mut Ready) -> Waited {
        self.world.wait(ready)
    }

    fn glance(&mut self, ready: &mut Ready) -> Glanced {
        self.world.glance(ready)
    }
}
