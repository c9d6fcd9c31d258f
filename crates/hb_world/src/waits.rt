//! What a wait of a script's world tells, and how it ends.

ghost use Rattle.std.specs.Prelude.{◌≡◌, ◌++◌, OnOk, OnErr, IfOk};
ghost use Rattle.hb_world.specs.Calls.{wait_entries};
ghost use Rattle.hb_world.specs.ScriptAnswers.{waited_for};
ghost use Rattle.hb_world.specs.WorldState.{passed_by};

use crate::entry::{Entry, ReadyItem, Woken};
use crate::ready::MOST_ITEMS;
use crate::trace::Trace;
use crate::turn::Ending;
use crate::world::Waited;
use hb_base::{List, NoMemory};
use std::alloc::Global;

/// A copy of these items.
pub fn copy_items(alloc: Global, items: &[ReadyItem]) -> Result<List<ReadyItem>, NoMemory>
    ensures { IfOk result (λ r. r ≡ items.now) }
{
    let mut copy = List::with_capacity(alloc, items.len())?;
    for item in items {
        copy.push(*item)?;
    }
    Ok(copy)
}

/// Adds a wait to a trace, and behind one that ends with Tick a Tick.
pub fn add_wait(trace: &mut Trace, items: List<ReadyItem>, ending: Ending) -> Result<(), NoMemory>
    ensures ok { OnOk result (trace.new ≡ trace.old ++ wait_entries items (waited_for ending)) }
    ensures err { OnErr result (trace.new ≡ trace.old) }
{
    match ending {
        Ending::Woke => trace.add(Entry::Wait(items, Woken::Woke)),
        Ending::Tick => trace.add_both(Entry::Wait(items, Woken::Tick), Entry::Tick),
        Ending::Stop => trace.add(Entry::Wait(items, Woken::Stop)),
        Ending::Failed => trace.add(Entry::Wait(items, Woken::Failed)),
    }
}

/// Of so many items, how many the next wait doesn't tell: those told now, and behind a Stop all.
pub fn told_before(ending: Ending, items: usize) -> usize
    ensures { result ≡ passed_by ending items }
{
    match ending {
        Ending::Stop => items,
        Ending::Woke | Ending::Tick | Ending::Failed => items.min(MOST_ITEMS),
    }
}

/// What a wait answers that ends so.
pub fn waited(ending: Ending) -> Waited
    ensures { result ≡ waited_for ending }
{
    match ending {
        Ending::Woke => Waited::Woke,
        Ending::Tick => Waited::Tick,
        Ending::Stop => Waited::Stop,
        Ending::Failed => Waited::Failed,
    }
}
