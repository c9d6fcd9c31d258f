//! A wait or a glance, and what it named.

ghost use Rattle.std.specs.Prelude.{◌≡◌, ◌∷◌, ℕ, ◌+◌, [], true, false, None, IfOk, IfSome, OnOk};
ghost use Rattle.hb_ready.specs.Registry.{kept};
ghost use Rattle.hb_turns.specs.Faults.{StaysWhole, CountsWhole};
ghost use Rattle.hb_turns.specs.Leads.{LeadLaw};
ghost use Rattle.hb_turns.specs.Looks.{Looks, Looked};
ghost use Rattle.hb_turns.specs.Reckons.{Adds, Reckons, Turned, IsBehindTick, one_less, is_spent};
ghost use Rattle.hb_turns.specs.Stands.{Keeps, Left, WatchedBy, IsIdle};
ghost use Rattle.hb_turns.specs.Woken.{Wakes, IsQuiet, Ticked};
ghost use Rattle.hb_turns.specs.Ends.{is_fault_of_turn, is_spent_by};
ghost use Rattle.hb_turns.specs.Shown.{Shown};
ghost use Rattle.hb_turns.specs.declared.words.ServeWords.{ServeWords};

use crate::acts::carry;
use crate::node::Node;
use crate::run::{Records, Run};
use crate::served::ServeEnd;
use hb_base::NoMemory;
use hb_world::{Glanced, Ready, ReadyItem, Waited, World};

/// A wait named this: the link or the door is to be tried.
fn wake_item(records: &mut Records, item: ReadyItem)
    ensures wakes { Wakes records.old records.new (item ∷ []) }
    ensures watched { (s : Shown) → WatchedBy (kept records.old.links) s → WatchedBy (kept records.new.links) s }
{
    match item {
        ReadyItem::Link(link) => records.links.wake(link),
        ReadyItem::Door(door) => records.asked.set(door, true),
    }
}

/// A wait named these.
fn wake(records: &mut Records, items: &[ReadyItem])
    ensures wakes { Wakes records.old records.new items.now }
    ensures watched { (s : Shown) → WatchedBy (kept records.old.links) s → WatchedBy (kept records.new.links) s }
{
    for item in items {
        wake_item(records, *item);
    }
}

/// Counts a tick down, and says whether it is the last.
fn is_last(ticks: &mut Option<u64>) -> bool
    ensures left { ticks.new ≡ one_less ticks.old }
    ensures last { result ≡ is_spent ticks.new }
{
    match ticks {
        None => false,
        Some(left) => {
            *left = left.saturating_sub(1);
            *left == 0
        }
    }
}

/// Time passed: the node is told, and what is due behind it is done. The end, where this was the last tick, behind which nothing is.
fn tick<W: World, N: Node>(
    run: &mut Run<N>,
    world: &mut W,
    ticks: &mut Option<u64>,
) -> Result<Option<ServeEnd>, NoMemory>
    ensures keeps { (N.shown run.old.node).idle ≡ true → IfSome (W.trace world.old) (Ticked N.stands N.shown run.old)
        → IfSome (W.trace world.new) (Left N.stands N.shown result run.new) }
    ensures idle { IfOk result (λ end. end ≡ None → IsIdle (N.shown run.new.node)) }
    ensures closes { OnOk result ((N.shown run.old.node).none_closes ≡ true → (N.shown run.new.node).none_closes ≡ true) }
    ensures turned { (words : ServeWords) (n w : ℕ) → IfSome (W.trace world.old) (IsBehindTick words ticks.old n w)
        → IfSome (W.trace world.new) (Turned result words ticks.new n w) }
    ensures looks { (n : ℕ) → IfSome (W.trace world.old) (Looks n) → IfSome (W.trace world.new) (Looked result n) }
    ensures adds { Adds false 0 (W.trace world.old) (W.trace world.new) }
    ensures stays { StaysWhole (W.seen world.old) (W.seen world.new) }
    ensures stops { is_fault_of_turn result ≡ false }
    ensures unspent { is_spent_by result ≡ false }
{
    run.node.tick();
    if is_last(ticks) {
        return Ok(Some(ServeEnd::Stopped));
    }
    carry(run, world)?;
    Ok(None)
}

/// A wait, and what it told done. The end, where it ends the run.
pub(crate) fn wait<W: World, N: Node>(
    run: &mut Run<N>,
    world: &mut W,
    ready: &mut Ready,
    ticks: &mut Option<u64>,
) -> Result<Option<ServeEnd>, NoMemory>
    ensures keeps { IsIdle (N.shown run.old.node) → IsQuiet run.old.records
        → Keeps N.stands N.shown result run.old (W.trace world.old) run.new (W.trace world.new) }
    ensures idle { IfOk result (λ end. end ≡ None → IsIdle (N.shown run.old.node) → IsIdle (N.shown run.new.node)) }
    ensures closes { OnOk result (IsIdle (N.shown run.old.node) → (N.shown run.new.node).none_closes ≡ true) }
    ensures turned { (words : ServeWords) (n w : ℕ) → IfSome (W.trace world.old) (Reckons words ticks.old n w)
        → IfSome (W.trace world.new) (Turned result words ticks.new (n + 2) (w + 1)) }
    ensures looks { (n : ℕ) → IfSome (W.trace world.old) (Looks n) → IfSome (W.trace world.new) (Looked result 0) }
    ensures leads { IfSome (W.trace world.old) (LeadLaw N.stands N.shown) → IfSome (W.trace world.new) (LeadLaw N.stands N.shown) }
    ensures faults { CountsWhole (W.seen world.old) (W.seen world.new) (is_fault_of_turn result) }
    ensures unspent { is_spent_by result ≡ false }
{
    match world.wait(ready) {
        Waited::Woke => {
            wake(&mut run.records, ready.items());
            Ok(None)
        }
        Waited::Tick => {
            wake(&mut run.records, ready.items());
            tick(run, world, ticks)
        }
        Waited::Stop => {
            wake(&mut run.records, ready.items());
            Ok(Some(ServeEnd::Stopped))
        }
        Waited::Failed => {
            wake(&mut run.records, ready.items());
            Ok(Some(ServeEnd::WorldFault))
        }
        Waited::NoMemory => Err(NoMemory),
    }
}

/// A glance, and what it told done. The end, where it ends the run.
pub(crate) fn glance<W: World, N: Node>(
    run: &mut Run<N>,
    world: &mut W,
    ready: &mut Ready,
    ticks: &mut Option<u64>,
) -> Result<Option<ServeEnd>, NoMemory>
    ensures keeps { IsIdle (N.shown run.old.node)
        → Keeps N.stands N.shown result run.old (W.trace world.old) run.new (W.trace world.new) }
    ensures idle { IfOk result (λ end. end ≡ None → IsIdle (N.shown run.old.node) → IsIdle (N.shown run.new.node)) }
    ensures closes { OnOk result (IsIdle (N.shown run.old.node) → (N.shown run.new.node).none_closes ≡ true) }
    ensures turned { (words : ServeWords) (n w : ℕ) → IfSome (W.trace world.old) (Reckons words ticks.old n w)
        → IfSome (W.trace world.new) (Turned result words ticks.new n w) }
    ensures looks { (n : ℕ) → IfSome (W.trace world.old) (Looks n) → IfSome (W.trace world.new) (Looked result 0) }
    ensures leads { IfSome (W.trace world.old) (LeadLaw N.stands N.shown) → IfSome (W.trace world.new) (LeadLaw N.stands N.shown) }
    ensures faults { CountsWhole (W.seen world.old) (W.seen world.new) (is_fault_of_turn result) }
    ensures unspent { is_spent_by result ≡ false }
{
    match world.glance(ready) {
        Glanced::Woke => {
            wake(&mut run.records, ready.items());
            Ok(None)
        }
        Glanced::Tick => {
            wake(&mut run.records, ready.items());
            tick(run, world, ticks)
        }
        Glanced::Failed => {
            wake(&mut run.records, ready.items());
            Ok(Some(ServeEnd::WorldFault))
        }
        Glanced::NoMemory => Err(NoMemory),
    }
}
