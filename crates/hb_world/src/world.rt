//! The sockets, and what stands outside the proxy.

use crate::ready::Ready;
use hb_base::{Cause, Door, Target, Why};

/// What a listen answers.
#[derive(Clone, Copy)]
pub enum Listened {
    /// The door listens from now on.
    Listening,
    Failed,
    NoMemory,
}

/// What an accept or a dial answers.
#[derive(Clone, Copy)]
pub enum Born {
    /// A link of this number is born.
    New(u64),
    /// No connection waits at the door.
    Balked,
    Failed,
    NoMemory,
}

/// What a finish answers.
#[derive(Clone, Copy)]
pub enum Finished {
    /// The dialled link is open.
    Opened,
    /// Not yet.
    Balked,
    Failed,
    NoMemory,
}

/// What a read answers.
#[derive(Clone, Copy)]
pub enum Read {
    /// So many bytes stand at the buffer's front, at least one.
    Got(usize),
    /// No byte comes any more.
    End,
    /// No byte is there yet.
    Balked,
    Failed,
    NoMemory,
}

/// What a write answers.
#[derive(Clone, Copy)]
pub enum Wrote {
    /// So many bytes from the buffer's front are written, at least one.
    Took(usize),
    /// No byte fits yet.
    Balked,
    Failed,
    NoMemory,
}

/// What a look at a link answers.
#[derive(Clone, Copy)]
pub enum Looked {
    /// Nothing tells that it broke.
    Fine,
    Failed,
    NoMemory,
}

/// What a wait answers.
#[derive(Clone, Copy)]
pub enum Waited {
    /// Something is ready.
    Woke,
    /// Time passed.
    Tick,
    /// The run is to end.
    Stop,
    Failed,
    NoMemory,
}

/// What a glance answers.
#[derive(Clone, Copy)]
pub enum Glanced {
    /// So much is ready now, or nothing.
    Woke,
    /// Time passed.
    Tick,
    Failed,
    NoMemory,
}

/// The sockets, as the proxy sees them. Links are numbered from 1 in order of birth.
///
/// Each call adds to the trace the entries that its answer says. Want of memory adds none and moves nothing.
/// No call changes the lines that the world follows, and none a count of faults but its own.
/// The counts of faults stay at `u64::MAX` once they are there.
pub trait World {
    ghost use Rattle.std.specs.Prelude.{◌≡◌, ◌<◌, List, length, Option};
    ghost use Rattle.hb_world.specs.declared.entry.Entry.{Entry};
    ghost use Rattle.hb_world.specs.declared.world.Born.TheVariants.{Balked};
    ghost use Rattle.hb_world.specs.Answers.{listen_failed, birth_failed, finish_failed, read_failed, write_failed, look_failed, wait_failed, glance_failed, HasNextNumber, ReadsWithin, WritesWithin, FinishesLiving, ReadsLiving, WritesLiving, LooksLiving};
    ghost use Rattle.hb_world.specs.Calls.{with_entries, with_shut, with_closed, listen_entries, accept_entries, dial_entries, finish_entries, read_entries, write_entries, look_entries, wait_entries, glance_entries};
    ghost use Rattle.hb_world.specs.Seen.{Seen, CountsUp, Stays, StaysButWhole, StaysButBirths, StaysButLink};

    /// What the calls did, in order, where the world tells it.
    ghost trace: { Self → Option (List Entry) };

    /// The lines that the world follows, where it is the world of a script, and how often calls failed.
    ghost seen: { Self → Seen };

    /// Begins to listen at a door.
    fn listen(&mut self, at: Target, door: Door) -> Listened
        ensures adds { trace self.new ≡ with_entries (listen_entries door at result) (trace self.old) }
        ensures counts { CountsUp (seen self.old).faults (seen self.new).faults (listen_failed result) }
        ensures stays { StaysButWhole (seen self.old) (seen self.new) };

    /// A link that waits at a door.
    fn accept(&mut self, door: Door) -> Born
        ensures adds { trace self.new ≡ with_entries (accept_entries door result) (trace self.old) }
        ensures number { HasNextNumber (trace self.old) result }
        ensures counts { CountsUp (seen self.old).birth_faults (seen self.new).birth_faults (birth_failed result) }
        ensures stays { StaysButBirths (seen self.old) (seen self.new) };

    /// A link to this address, which `finish` tells to be open. It never balks.
    fn dial(&mut self, to: Target, why: Why) -> Born
        ensures adds { trace self.new ≡ with_entries (dial_entries to why result) (trace self.old) }
        ensures number { HasNextNumber (trace self.old) result }
        ensures moves { ¬ (result ≡ Balked) }
        ensures counts { CountsUp (seen self.old).birth_faults (seen self.new).birth_faults (birth_failed result) }
        ensures stays { StaysButBirths (seen self.old) (seen self.new) };

    /// Whether a dialled link is open. A link that doesn't live balks.
    fn finish(&mut self, link: u64) -> Finished
        ensures adds { trace self.new ≡ with_entries (finish_entries link result) (trace self.old) }
        ensures living { FinishesLiving link (trace self.old) result }
        ensures counts { CountsUp ((seen self.old).link_faults link) ((seen self.new).link_faults link) (finish_failed result) }
        ensures stays { StaysButLink link (seen self.old) (seen self.new) };

    /// Reads some bytes to the buffer's front. A link that doesn't live balks.
    fn read(&mut self, link: u64, into: &mut [u8]) -> Read
        requires { 0 < length into.old }
        ensures adds { trace self.new ≡ with_entries (read_entries link into.new result) (trace self.old) }
        ensures within { ReadsWithin into.new result }
        ensures living { ReadsLiving link (trace self.old) result }
        ensures counts { CountsUp ((seen self.old).link_faults link) ((seen self.new).link_faults link) (read_failed result) }
        ensures stays { StaysButLink link (seen self.old) (seen self.new) };

    /// Writes some bytes from the buffer's front. A link that doesn't live balks.
    fn write(&mut self, link: u64, from: &[u8]) -> Wrote
        requires { 0 < length from.now }
        ensures adds { trace self.new ≡ with_entries (write_entries link from.now result) (trace self.old) }
        ensures within { WritesWithin from.now result }
        ensures living { WritesLiving link (trace self.old) result }
        ensures counts { CountsUp ((seen self.old).link_faults link) ((seen self.new).link_faults link) (write_failed result) }
        ensures stays { StaysButLink link (seen self.old) (seen self.new) };

    /// Whether the link broke, as far as that can be told without a read or a write: so it is asked of one whose peer sends no more. A link
    /// that doesn't live is fine.
    fn look(&mut self, link: u64) -> Looked
        ensures adds { trace self.new ≡ with_entries (look_entries link result) (trace self.old) }
        ensures living { LooksLiving link (trace self.old) result }
        ensures counts { CountsUp ((seen self.old).link_faults link) ((seen self.new).link_faults link) (look_failed result) }
        ensures stays { StaysButLink link (seen self.old) (seen self.new) };

    /// Writes no more to the link. It takes no memory, and does nothing to a link that doesn't live or was
    /// shut before.
    fn shut(&mut self, link: u64)
        ensures adds { trace self.new ≡ with_shut link (trace self.old) }
        ensures stays { Stays (seen self.old) (seen self.new) };

    /// Ends the link. It takes no memory, and does nothing to a link that doesn't live. Of the link that it closed a world may
    /// forget how often calls failed.
    fn close(&mut self, link: u64, cause: Cause)
        ensures adds { trace self.new ≡ with_closed link cause (trace self.old) }
        ensures stays { StaysButLink link (seen self.old) (seen self.new) };

    /// Waits until something is ready, and puts what is in place of what `ready` held.
    fn wait(&mut self, ready: &mut Ready) -> Waited
        ensures adds { trace self.new ≡ with_entries (wait_entries ready.new result) (trace self.old) }
        ensures counts { CountsUp (seen self.old).faults (seen self.new).faults (wait_failed result) }
        ensures stays { StaysButWhole (seen self.old) (seen self.new) };

    /// What is ready now, in place of what `ready` held. It doesn't wait.
    fn glance(&mut self, ready: &mut Ready) -> Glanced
        ensures adds { trace self.new ≡ with_entries (glance_entries ready.new result) (trace self.old) }
        ensures counts { CountsUp (seen self.old).faults (seen self.new).faults (glance_failed result) }
        ensures stays { StaysButWhole (seen self.old) (seen self.new) };
}
