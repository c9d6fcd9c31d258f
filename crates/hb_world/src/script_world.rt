//! The world of a script.

ghost use Rattle.std.specs.Prelude.{◌≡◌, ◌⊎◌, ◌<◌, ◌≤◌, ℕ, [], ◌++◌, length, take, IsTrue, not, ◌&&◌, OnOk, OnErr, IfOk, Some};
ghost use Rattle.hb_world.specs.Allowed.{Allowed};
ghost use Rattle.hb_world.specs.Calls.{listen_entries, accept_entries, dial_entries, finish_entries, read_entries, write_entries, look_entries, wait_entries, glance_entries, shut_entries, close_entries};
ghost use Rattle.hb_world.specs.ScriptAnswers.{listen_answer, accept_answer, dial_answer, finish_answer, read_answer, write_answer, look_answer, wait_answer, waited_for, told_by_wait, begins_with_fault, GivesFront, LeavesReady};
ghost use Rattle.hb_world.specs.WorldState.{ScriptState, GivesNothing, TakesNothing, counted};
ghost use Rattle.hb_world.specs.Answers.{birth_failed, ReadsLiving, ReadsWithin, WritesWithin};
ghost use Rattle.hb_world.specs.LinkState.{front_of, HasFront};
ghost use Rattle.hb_world.specs.Script.{standing, turn_of, turn_ends, ready_in};
ghost use Rattle.hb_world.specs.Trace.{lives};

use crate::doors::{Doors, ScriptDoor};
use crate::entry::{Entry, ReadyItem, Way, Woken};
use crate::line::Line;
use crate::links::{Links, links_of};
use crate::named::ready_items;
use crate::ready::{MOST_ITEMS, Ready};
use crate::trace::Trace;
use crate::turn::{failing_after_turn, turn_end, turn_len, turn_to_doors, turn_to_links};
use crate::waits::{add_wait, copy_items, told_before, waited};
use crate::world::{Born, Finished, Glanced, Listened, Looked, Read, Waited, World, Wrote};
use hb_base::{Bytes, Cause, Door, List, NoMemory, Target, Why};
use std::alloc::Global;
use std::marker::Model;

/// The world that a script's lines describe; it tells its trace, which the lines allow. Contracts see the lines, the
/// trace, and how often an accept or a dial failed.
#[derive(Drop)]
pub struct ScriptWorld {
    alloc: Global,
    lines: List<Line>,
    /// How many lines the waits applied.
    next: usize,
    trace: Trace,
    links: Links,
    doors: Doors<ScriptDoor>,
    /// How many of the next dials fail.
    failing: u64,
    /// The items that the last lines named.
    named: Vec<ReadyItem>,
    /// How many of them were told.
    told: usize,
    /// A door was listened at before.
    listened: bool,
    birth_faults: u64,
}

impl Model for ScriptWorld {
    ghost use Rattle.std.specs.Prelude.{◌≡◌, drop};
    ghost use Rattle.std.specs.List.{list_any};
    ghost use Rattle.hb_world.specs.Allowed.{Allowed};
    ghost use Rattle.hb_world.specs.ScriptAnswers.{is_listen};
    ghost use Rattle.hb_world.specs.Script.{standing};
    ghost use Rattle.hb_world.specs.WorldState.{ScriptState, Keeps};

    ghost Value = { ScriptState };

    ghost view = { λ w. record { lines = w.lines; trace = w.trace; birth_faults = w.birth_faults } };

    ghost invariant = { λ w. Keeps (standing w.lines w.trace) w.lines w.next w.links w.doors w.failing (drop w.told w.named.items)
        × (w.listened ≡ list_any is_listen w.trace) × Allowed w.lines w.trace };
}

impl ScriptWorld {
    /// The world of a script without lines, in which nothing happened yet.
    pub fn new(alloc: Global) -> ScriptWorld
        ensures { result ≡ record { lines = []; trace = []; birth_faults = 0 } }
    {
        ScriptWorld {
            alloc,
            lines: List::new(alloc),
            next: 0,
            trace: Trace::new(alloc),
            links: Links::new(alloc),
            doors: Doors::new(ScriptDoor {
                listening: false,
                waiting: 0,
            }),
            failing: 0,
            named: Vec::new(alloc),
            told: 0,
            listened: false,
            birth_faults: 0,
        }
    }

    /// Gives a world its lines in which nothing happened yet.
    ///
    /// Errors: `NoMemory`, and then it has no lines.
    pub fn load(&mut self, lines: List<Line>) -> Result<(), NoMemory>
        requires lines { self.old.lines ≡ [] }
        requires trace { self.old.trace ≡ [] }
        ensures ok { OnOk result (self.new ≡ record self.old { lines = lines }) }
        ensures err { OnErr result (self.new ≡ self.old) }
    {
        let links = links_of(self.alloc, lines.as_slice())?;
        self.links = links;
        self.lines = lines;
        Ok(())
    }

    /// The world of these lines, in which nothing happened yet.
    ///
    /// Errors: `NoMemory`.
    pub fn over(alloc: Global, lines: List<Line>) -> Result<ScriptWorld, NoMemory>
        ensures { IfOk result (λ w. w ≡ record { lines = lines; trace = []; birth_faults = 0 }) }
    {
        let mut world = ScriptWorld::new(alloc);
        world.load(lines)?;
        Ok(world)
    }

    /// The trace: what the calls did, in order.
    pub fn entries(&self) -> &[Entry]
        ensures { result.now ≡ self.now.trace }
    {
        self.trace.entries()
    }

    /// Does nothing. It says of each world of a script, whatever calls were made on it, that its lines allow its trace.
    pub fn is_allowed(&self)
        ensures { Allowed self.now.lines self.now.trace }
    {
        // What holds of each world is known in a body that reads it.
        let _trace = &self.trace;
    }

    /// What a finish answers.
    fn finish_said(&self, link: u64) -> Finished
        ensures { result ≡ finish_answer self.now.lines self.now.trace link }
    {
        match self.links.get(link) {
            Some(kept) if self.trace.lives(link) => kept.finish(),
            _ => Finished::Balked,
        }
    }

    /// What a read into a buffer of this length answers.
    fn read_said(&self, link: u64, room: usize) -> Read
        ensures answer { result ≡ read_answer self.now.lines self.now.trace link room }
        ensures lives { ReadsLiving link (Some self.now.trace) result }
        ensures piece { HasFront (front_of ((standing self.now.lines self.now.trace).links link).unread) result }
    {
        if !self.trace.lives(link) {
            return Read::Balked;
        }
        match self.links.get(link) {
            Some(kept) => kept.read(room),
            None => Read::Balked,
        }
    }

    /// Reads the first bytes of the piece in front.
    fn read_piece(&mut self, link: u64, into: &mut [u8]) -> Read
        requires some { 0 < length into.old }
        requires lives { IsTrue (lives link self.old.trace) }
        requires piece { 0 < length (front_of ((standing self.old.lines self.old.trace).links link).unread) }
        ensures answer { (result ≡ Read.NoMemory) ⊎ (result ≡ read_answer self.old.lines self.old.trace link (length into.old)) }
        ensures within { ReadsWithin into.new result }
        ensures front { GivesFront self.old.lines self.old.trace link into.new result }
        ensures after { self.new ≡ record self.old { trace = self.old.trace ++ read_entries link into.new result } }
    {
        let Some(kept) = self.links.get(link) else {
            return Read::NoMemory;
        };
        let piece = kept.front();
        let n = piece.len().min(into.len());
        let Ok(bytes) = Bytes::of(self.alloc, &piece[..n]) else {
            return Read::NoMemory;
        };
        into[..n].copy_from_slice(&piece[..n]);
        if self.trace.add(Entry::Came(link, bytes)).is_err() {
            return Read::NoMemory;
        }
        self.links.skip(link, n);
        Read::Got(n)
    }

    /// Reads nothing, where no piece is left.
    fn read_nothing(&mut self, link: u64, answer: Read) -> Read
        requires nothing { GivesNothing answer }
        requires said { (room : ℕ) × (read_answer self.old.lines self.old.trace link room ≡ answer) }
        ensures answer { (result ≡ Read.NoMemory) ⊎ (result ≡ answer) }
        ensures after { self.new ≡ record self.old { trace = self.old.trace ++ read_entries link [] result } }
    {
        let entry = match answer {
            Read::Got(_) | Read::NoMemory => return Read::NoMemory,
            Read::End => Entry::Ended(link),
            Read::Balked => Entry::Balked(Way::Read(link)),
            Read::Failed => Entry::Broke(link),
        };
        match self.trace.add(entry) {
            Ok(()) => answer,
            Err(_) => Read::NoMemory,
        }
    }

    /// What a write of so many bytes answers.
    fn write_said(&self, link: u64, offered: usize) -> Wrote
        ensures { result ≡ write_answer self.now.lines self.now.trace link offered }
    {
        if !self.trace.lives(link) {
            return Wrote::Balked;
        }
        match self.links.get(link) {
            Some(kept) => kept.write(offered),
            None => Wrote::Took(offered),
        }
    }

    /// What a look answers.
    fn look_said(&self, link: u64) -> Looked
        ensures { result ≡ look_answer self.now.lines self.now.trace link }
    {
        match self.links.get(link) {
            Some(kept) if self.trace.lives(link) => kept.look(),
            _ => Looked::Fine,
        }
    }

    /// Writes the first bytes.
    fn write_bytes(&mut self, link: u64, n: usize, from: &[u8]) -> Wrote
        requires fits { n ≤ length from.now }
        requires said { (offered : ℕ) × (write_answer self.old.lines self.old.trace link offered ≡ Wrote.Took n) }
        ensures answer { (result ≡ Wrote.NoMemory) ⊎ (result ≡ Wrote.Took n) }
        ensures after { self.new ≡ record self.old { trace = self.old.trace ++ write_entries link from.now result } }
    {
        let Ok(bytes) = Bytes::of(self.alloc, &from[..n]) else {
            return Wrote::NoMemory;
        };
        if self.trace.add(Entry::Went(link, bytes)).is_err() {
            return Wrote::NoMemory;
        }
        self.links.use_room(link, n);
        Wrote::Took(n)
    }

    /// Writes nothing.
    fn write_nothing(&mut self, link: u64, answer: Wrote) -> Wrote
        requires nothing { TakesNothing answer }
        requires said { (offered : ℕ) × (write_answer self.old.lines self.old.trace link offered ≡ answer) }
        ensures answer { (result ≡ Wrote.NoMemory) ⊎ (result ≡ answer) }
        ensures after { self.new ≡ record self.old { trace = self.old.trace ++ write_entries link [] result } }
    {
        let entry = match answer {
            Wrote::Took(_) | Wrote::NoMemory => return Wrote::NoMemory,
            Wrote::Balked => Entry::Balked(Way::Write(link)),
            Wrote::Failed => Entry::Broke(link),
        };
        match self.trace.add(entry) {
            Ok(()) => answer,
            Err(_) => Wrote::NoMemory,
        }
    }

    /// Tells more of the items that the last lines named.
    fn tell_rest(&mut self, ready: &mut Ready) -> Waited
        requires { 0 < length (standing self.old.lines self.old.trace).rest }
        ensures answer { (result ≡ Waited.NoMemory) ⊎ (result ≡ Waited.Woke) }
        ensures items { LeavesReady ready.old ready.new (take 1024 (standing self.old.lines self.old.trace).rest) result }
        ensures after { self.new ≡ record self.old { trace = self.old.trace ++ wait_entries ready.new result } }
    {
        let (_, left) = self.named.as_slice().split_at(self.told);
        let count = left.len().min(MOST_ITEMS);
        let (now, _) = left.split_at(count);
        let Ok(items) = copy_items(self.alloc, now) else {
            return Waited::NoMemory;
        };
        if self.trace.add(Entry::Wait(items, Woken::Woke)).is_err() {
            return Waited::NoMemory;
        }
        ready.fill(now);
        self.told += count;
        Waited::Woke
    }

    /// Applies the lines of a turn, and tells what they named.
    fn begin_turn(&mut self, ready: &mut Ready) -> Waited
        requires { length (standing self.old.lines self.old.trace).rest ≡ 0 }
        ensures answer { (result ≡ Waited.NoMemory) ⊎ (result ≡ waited_for (turn_ends (standing self.old.lines self.old.trace).coming)) }
        ensures items { LeavesReady ready.old ready.new
            (take 1024 (ready_in (turn_of (standing self.old.lines self.old.trace).coming) self.old.trace)) result }
        ensures after { self.new ≡ record self.old { trace = self.old.trace ++ wait_entries ready.new result } }
    {
        let (_, coming) = self.lines.as_slice().split_at(self.next);
        let count = turn_len(coming);
        let woken = turn_end(coming);
        let (turn, _) = coming.split_at(count);
        let Ok(named) = ready_items(self.alloc, turn, &self.trace, &self.doors) else {
            return Waited::NoMemory;
        };
        let items = named.as_slice();
        let named_count = items.len();
        let (now, _) = items.split_at(named_count.min(MOST_ITEMS));
        let Ok(told) = copy_items(self.alloc, now) else {
            return Waited::NoMemory;
        };
        if add_wait(&mut self.trace, told, woken).is_err() {
            return Waited::NoMemory;
        }
        ready.fill(now);
        turn_to_links(coming, count, &mut self.links);
        turn_to_doors(turn, &mut self.doors);
        self.failing = failing_after_turn(turn, self.failing);
        self.next += count;
        self.told = told_before(woken, named_count);
        self.named = named;
        waited(woken)
    }
}

impl World for ScriptWorld {
    ghost use Rattle.std.specs.Prelude.{Some};
    ghost use Rattle.hb_world.specs.WorldState.{seen_of};

    ghost trace = { λ w. Some w.trace };

    ghost seen = { λ w. seen_of w };

    fn listen(&mut self, at: Target, door: Door) -> Listened
        ensures answer { (result ≡ Listened.NoMemory) ⊎ (result ≡ listen_answer self.old.lines self.old.trace) }
        ensures after { self.new ≡ record self.old { trace = self.old.trace ++ listen_entries door at result } }
    {
        let fails = first_listen_fails(self.lines.as_slice(), self.listened);
        let entry = Entry::Balked(Way::Listen(door, at, !fails));
        if self.trace.add(entry).is_err() {
            return Listened::NoMemory;
        }
        self.listened = true;
        if fails {
            return Listened::Failed;
        }
        let waiting = self.doors.at(door).waiting;
        let listening = ScriptDoor {
            listening: true,
            waiting,
        };
        self.doors.set(door, listening);
        Listened::Listening
    }

    fn accept(&mut self, door: Door) -> Born
        ensures answer { (result ≡ Born.NoMemory) ⊎ (result ≡ accept_answer self.old.lines self.old.trace door) }
        ensures after { self.new ≡ record self.old {
          trace = self.old.trace ++ accept_entries door result;
          birth_faults = counted self.old.birth_faults (birth_failed result);
        } }
        ensures later { self.old.birth_faults ≤ self.new.birth_faults }
    {
        let at_door = self.doors.at(door);
        let births = self.trace.births();
        if at_door.waiting == 0 || births == u64::MAX {
            if self.trace.add(Entry::Balked(Way::Accept(door))).is_err() {
                return Born::NoMemory;
            }
            if at_door.waiting == 0 {
                return Born::Balked;
            }
            self.birth_faults = self.birth_faults.saturating_add(1);
            return Born::Failed;
        }
        let link = births + 1;
        if self.trace.add_birth(Entry::Accepted(link, door)).is_err() {
            return Born::NoMemory;
        }
        let left = ScriptDoor {
            listening: at_door.listening,
            waiting: at_door.waiting - 1,
        };
        self.doors.set(door, left);
        Born::New(link)
    }

    fn dial(&mut self, to: Target, why: Why) -> Born
        ensures answer { (result ≡ Born.NoMemory) ⊎ (result ≡ dial_answer self.old.lines self.old.trace) }
        ensures after { self.new ≡ record self.old {
          trace = self.old.trace ++ dial_entries to why result;
          birth_faults = counted self.old.birth_faults (birth_failed result);
        } }
        ensures later { self.old.birth_faults ≤ self.new.birth_faults }
    {
        let births = self.trace.births();
        if self.failing != 0 || births == u64::MAX {
            if self.trace.add(Entry::DialFailed(to, why)).is_err() {
                return Born::NoMemory;
            }
            self.failing = self.failing.saturating_sub(1);
            self.birth_faults = self.birth_faults.saturating_add(1);
            return Born::Failed;
        }
        let link = births + 1;
        if self.trace.add_birth(Entry::Dialled(link, to, why)).is_err() {
            return Born::NoMemory;
        }
        Born::New(link)
    }

    fn finish(&mut self, link: u64) -> Finished
        ensures answer { (result ≡ Finished.NoMemory) ⊎ (result ≡ finish_answer self.old.lines self.old.trace link) }
        ensures after { self.new ≡ record self.old { trace = self.old.trace ++ finish_entries link result } }
    {
        let answer = self.finish_said(link);
        let entry = match answer {
            Finished::Opened => Entry::Opened(link),
            Finished::Balked => Entry::Balked(Way::Finish(link)),
            Finished::Failed => Entry::Broke(link),
            Finished::NoMemory => return Finished::NoMemory,
        };
        match self.trace.add(entry) {
            Ok(()) => answer,
            Err(_) => Finished::NoMemory,
        }
    }

    fn read(&mut self, link: u64, into: &mut [u8]) -> Read
        requires { 0 < length into.old }
        ensures answer { (result ≡ Read.NoMemory) ⊎ (result ≡ read_answer self.old.lines self.old.trace link (length into.old)) }
        ensures front { GivesFront self.old.lines self.old.trace link into.new result }
        ensures within { ReadsWithin into.new result }
        ensures after { self.new ≡ record self.old { trace = self.old.trace ++ read_entries link into.new result } }
    {
        match self.read_said(link, into.len()) {
            Read::Got(_) => self.read_piece(link, into),
            nothing => self.read_nothing(link, nothing),
        }
    }

    fn write(&mut self, link: u64, from: &[u8]) -> Wrote
        requires { 0 < length from.now }
        ensures answer { (result ≡ Wrote.NoMemory) ⊎ (result ≡ write_answer self.old.lines self.old.trace link (length from.now)) }
        ensures within { WritesWithin from.now result }
        ensures after { self.new ≡ record self.old { trace = self.old.trace ++ write_entries link from.now result } }
    {
        match self.write_said(link, from.len()) {
            Wrote::Took(n) => self.write_bytes(link, n, from),
            nothing => self.write_nothing(link, nothing),
        }
    }

    fn look(&mut self, link: u64) -> Looked
        ensures answer { (result ≡ Looked.NoMemory) ⊎ (result ≡ look_answer self.old.lines self.old.trace link) }
        ensures after { self.new ≡ record self.old { trace = self.old.trace ++ look_entries link result } }
    {
        let answer = self.look_said(link);
        let entry = match answer {
            Looked::Fine => Entry::Balked(Way::Look(link)),
            Looked::Failed => Entry::Broke(link),
            Looked::NoMemory => return Looked::NoMemory,
        };
        match self.trace.add(entry) {
            Ok(()) => answer,
            Err(_) => Looked::NoMemory,
        }
    }

    fn shut(&mut self, link: u64)
        ensures after { self.new ≡ record self.old { trace = self.old.trace ++ shut_entries link self.old.trace } }
    {
        self.trace.shut(link);
    }

    fn close(&mut self, link: u64, cause: Cause)
        ensures after { self.new ≡ record self.old { trace = self.old.trace ++ close_entries link cause self.old.trace } }
    {
        self.trace.close(link, cause);
    }

    fn wait(&mut self, ready: &mut Ready) -> Waited
        ensures answer { (result ≡ Waited.NoMemory) ⊎ (result ≡ wait_answer self.old.lines self.old.trace) }
        ensures items { LeavesReady ready.old ready.new (told_by_wait self.old.lines self.old.trace) result }
        ensures after { self.new ≡ record self.old { trace = self.old.trace ++ wait_entries ready.new result } }
    {
        if self.told < self.named.len() {
            return self.tell_rest(ready);
        }
        self.begin_turn(ready)
    }

    fn glance(&mut self, ready: &mut Ready) -> Glanced
        ensures answer { (result ≡ Glanced.NoMemory) ⊎ (result ≡ Glanced.Woke) }
        ensures items { result ≡ Glanced.Woke → ready.new ≡ [] }
        ensures after { self.new ≡ record self.old { trace = self.old.trace ++ glance_entries ready.new result } }
    {
        let entry = Entry::Wait(List::new(self.alloc), Woken::Glanced);
        if self.trace.add(entry).is_err() {
            return Glanced::NoMemory;
        }
        ready.clear();
        Glanced::Woke
    }
}

/// Whether a listen is the first, of a script that begins with its fault.
fn first_listen_fails(lines: &[Line], listened: bool) -> bool
    ensures { result ≡ (begins_with_fault lines.now && not listened) }
{
    !listened && matches!(lines.first(), Some(Line::FaultListen))
}
