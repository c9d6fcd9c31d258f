//! Of hb_world.

ghost use Rattle.std.specs.Prelude.{◌≡◌, ◌⊎◌, ◌<◌, [], ◌++◌, ◌∷◌, length, OnOk, OnErr};
ghost use Rattle.hb_world.specs.Answers.{ReadsWithin, WritesWithin};
ghost use Rattle.hb_world.specs.Calls.{read_entries, write_entries, look_entries, wait_entries, close_entries};
ghost use Rattle.hb_world.specs.ScriptAnswers.{read_answer, write_answer, look_answer, wait_answer, told_by_wait, GivesFront, LeavesReady};

use hb_base::{Cause, List, NoMemory};
use hb_world::{Entry, Line, Looked, Read, Ready, ReadyItem, ScriptWorld, Waited, World, Wrote};

/// `Ready::push`.
pub fn push(ready: &mut Ready, item: ReadyItem)
    requires { length ready.old < 1024 }
    ensures { ready.new ≡ ready.old ++ item ∷ [] }
{
    ready.push(item);
}

/// `ScriptWorld::load`, with its Errors.
pub fn load(world: &mut ScriptWorld, lines: List<Line>) -> Result<(), NoMemory>
    requires lines { world.old.lines ≡ [] }
    requires trace { world.old.trace ≡ [] }
    ensures ok { OnOk result (world.new ≡ record world.old { lines = lines }) }
    ensures err { OnErr result (world.new ≡ world.old) }
{
    world.load(lines)
}

/// `ScriptWorld::entries`.
pub fn entries(world: &ScriptWorld) -> &[Entry]
    ensures { result.now ≡ world.now.trace }
{
    world.entries()
}

/// `World::read` of `ScriptWorld`.
pub fn read(world: &mut ScriptWorld, link: u64, into: &mut [u8]) -> Read
    requires { 0 < length into.old }
    ensures answer { (result ≡ Read.NoMemory) ⊎ (result ≡ read_answer world.old.lines world.old.trace link (length into.old)) }
    ensures front { GivesFront world.old.lines world.old.trace link into.new result }
    ensures within { ReadsWithin into.new result }
    ensures after { world.new ≡ record world.old { trace = world.old.trace ++ read_entries link into.new result } }
{
    world.read(link, into)
}

/// `World::write` of `ScriptWorld`.
pub fn write(world: &mut ScriptWorld, link: u64, from: &[u8]) -> Wrote
    requires { 0 < length from.now }
    ensures answer { (result ≡ Wrote.NoMemory) ⊎ (result ≡ write_answer world.old.lines world.old.trace link (length from.now)) }
    ensures within { WritesWithin from.now result }
    ensures after { world.new ≡ record world.old { trace = world.old.trace ++ write_entries link from.now result } }
{
    world.write(link, from)
}

/// `World::look` of `ScriptWorld`.
pub fn look(world: &mut ScriptWorld, link: u64) -> Looked
    ensures answer { (result ≡ Looked.NoMemory) ⊎ (result ≡ look_answer world.old.lines world.old.trace link) }
    ensures after { world.new ≡ record world.old { trace = world.old.trace ++ look_entries link result } }
{
    world.look(link)
}

/// `World::close` of `ScriptWorld`.
pub fn close(world: &mut ScriptWorld, link: u64, cause: Cause)
    ensures after { world.new ≡ record world.old { trace = world.old.trace ++ close_entries link cause world.old.trace } }
{
    world.close(link, cause);
}

/// `World::wait` of `ScriptWorld`.
pub fn wait(world: &mut ScriptWorld, ready: &mut Ready) -> Waited
    ensures answer { (result ≡ Waited.NoMemory) ⊎ (result ≡ wait_answer world.old.lines world.old.trace) }
    ensures items { LeavesReady ready.old ready.new (told_by_wait world.old.lines world.old.trace) result }
    ensures after { world.new ≡ record world.old { trace = world.old.trace ++ wait_entries ready.new result } }
{
    world.wait(ready)
}
