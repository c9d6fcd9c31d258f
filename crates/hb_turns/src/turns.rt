//! Turns: a round where something is to be tried, and a glance behind enough of them, else a wait.

ghost use Rattle.std.specs.Prelude.{◌≡◌, ◌≤◌, ℕ, ◌+◌, true, false, None, IfOk, IfSome, OnOk};
ghost use Rattle.hb_turns.specs.Faults.{CountsWhole};
ghost use Rattle.hb_turns.specs.Ends.{is_fault, is_fault_of_turn, is_spent_by, end_of};
ghost use Rattle.hb_turns.specs.Leads.{LeadLaw, NotBehindLook};
ghost use Rattle.hb_turns.specs.Looks.{Fits, Looks, Looked, LooksLaw};
ghost use Rattle.hb_turns.specs.Reckons.{Paid, Reckons, Turned, Finishes};
ghost use Rattle.hb_turns.specs.Stands.{Keeps, IsIdle, Stands};
ghost use Rattle.hb_turns.specs.declared.served.ServeEnd.TheVariants.{TurnsSpent};
ghost use Rattle.hb_turns.specs.declared.words.ServeWords.{ServeWords};
ghost use Rattle.hb_turns.specs.Woken.{IsQuiet};

use crate::acts::carry;
use crate::node::Node;
use crate::round::round;
use crate::run::{Records, Run};
use crate::served::ServeEnd;
use crate::waits::{glance, wait};
use hb_base::NoMemory;
use hb_world::{Ready, World};

/// Behind so many tries that moved something, with work left, the world is looked at.
const ENOUGH_TRIES: u64 = 16;

/// Whether a link stands on the list, or an accept may give a link at a door.
fn has_work(records: &Records) -> bool
    ensures quiet { result ≡ false → IsQuiet records.now }
    ensures work { result ≡ true → IsQuiet records.now → ⊥ }
{
    match records.links.front() {
        Some(_) => true,
        None => records.asked.inbound | records.asked.outbound | records.asked.plain,
    }
}

/// Behind a round: a glance, where work is left and enough tries moved something since the last look. The end, where it ends the run.
fn look_up<W: World, N: Node>(
    run: &mut Run<N>,
    world: &mut W,
    ready: &mut Ready,
    ticks: &mut Option<u64>,
    unseen: &mut u64,
) -> Result<Option<ServeEnd>, NoMemory>
    ensures keeps { IsIdle (N.shown run.old.node)
        → Keeps N.stands N.shown result run.old (W.trace world.old) run.new (W.trace world.new) }
    ensures idle { IfOk result (λ end. end ≡ None → IsIdle (N.shown run.old.node) → IsIdle (N.shown run.new.node)) }
    ensures closes { OnOk result (IsIdle (N.shown run.old.node) → (N.shown run.new.node).none_closes ≡ true) }
    ensures turned { (words : ServeWords) (n w : ℕ) → IfSome (W.trace world.old) (Reckons words ticks.old n w)
        → IfSome (W.trace world.new) (Turned result words ticks.new n w) }
    ensures quiet { IsQuiet run.old.records → IsQuiet run.new.records }
    ensures leads { IfSome (W.trace world.old) (LeadLaw N.stands N.shown) → IfSome (W.trace world.new) (LeadLaw N.stands N.shown) }
    ensures looks { (n : ℕ) → n ≤ unseen.old → (m : ℕ) × (IfOk result (λ end. Fits m unseen.new run.new.records))
        × (IfSome (W.trace world.old) (Looks n) → IfSome (W.trace world.new) (Looked result m)) }
    ensures faults { CountsWhole (W.seen world.old) (W.seen world.new) (is_fault_of_turn result) }
    ensures unspent { is_spent_by result ≡ false }
{
    if !has_work(&run.records) {
        return Ok(None);
    }
    if *unseen < ENOUGH_TRIES {
        return Ok(None);
    }
    *unseen = 0;
    glance(run, world, ready, ticks)
}

/// A turn: a wait, or a round and a look up behind it. The end, where it ends the run.
fn turn<W: World, N: Node>(
    run: &mut Run<N>,
    world: &mut W,
    ready: &mut Ready,
    ticks: &mut Option<u64>,
    unseen: &mut u64,
) -> Result<Option<ServeEnd>, NoMemory>
    ensures keeps { IsIdle (N.shown run.old.node)
        → Keeps N.stands N.shown result run.old (W.trace world.old) run.new (W.trace world.new) }
    ensures idle { IfOk result (λ end. end ≡ None → IsIdle (N.shown run.old.node) → IsIdle (N.shown run.new.node)) }
    ensures closes { OnOk result (IsIdle (N.shown run.old.node) → (N.shown run.new.node).none_closes ≡ true) }
    ensures turned { (t n : ℕ) → Paid t n run.old.records → (m : ℕ)
        × (IfOk result (λ end. end ≡ None → Paid (t + 1) m run.new.records))
        × ((words : ServeWords) (w : ℕ) → IfSome (W.trace world.old) (Reckons words ticks.old n w)
        → IfSome (W.trace world.new) (Turned result words ticks.new m (w + 1))) }
    ensures leads { IfSome (W.trace world.old) (Stands N.stands N.shown run.old)
        → IfSome (W.trace world.old) (LeadLaw N.stands N.shown) → IfSome (W.trace world.new) (LeadLaw N.stands N.shown) }
    ensures looks { (n : ℕ) → Fits n unseen.old run.old.records → (m : ℕ) × (IfOk result (λ end. Fits m unseen.new run.new.records))
        × (IfSome (W.trace world.old) (Looks n) → IfSome (W.trace world.new) (Looked result m)) }
    ensures faults { CountsWhole (W.seen world.old) (W.seen world.new) (is_fault_of_turn result) }
    ensures unspent { is_spent_by result ≡ false }
{
    if !has_work(&run.records) {
        *unseen = 0;
        return wait(run, world, ready, ticks);
    }
    let made = round(run, world)?;
    *unseen = unseen.saturating_add(made);
    look_up(run, world, ready, ticks, unseen)
}

/// All turns.
pub(crate) fn turns<W: World, N: Node>(
    run: &mut Run<N>,
    world: &mut W,
    ready: &mut Ready,
    most: u64,
    ticks: Option<u64>,
) -> Result<ServeEnd, NoMemory>
    ensures keeps { Keeps N.stands N.shown result run.old (W.trace world.old) run.new (W.trace world.new) }
    ensures closes { OnOk result ((N.shown run.new.node).none_closes ≡ true) }
    ensures rests { IfOk result (λ end. end ≡ TurnsSpent → (N.shown run.new.node).idle ≡ true) }
    ensures finishes { (words : ServeWords) → words.turns ≡ most → IfSome (W.trace world.old) (Reckons words ticks 0 0)
        → IfSome (W.trace world.new) (Finishes words (end_of result)) }
    ensures looks { IfSome (W.trace world.old) (Looks 0) → IfSome (W.trace world.new) LooksLaw }
    ensures leads { IfSome (W.trace world.old) (Stands N.stands N.shown run.old)
        → IfSome (W.trace world.old) (NotBehindLook N.stands N.shown) → IfSome (W.trace world.new) (LeadLaw N.stands N.shown) }
    ensures faults { CountsWhole (W.seen world.old) (W.seen world.new) (is_fault (end_of result)) }
{
    carry(run, world)?;
    let mut ticks = ticks;
    let mut unseen = 0;
    for _turn in 0..most {
        match turn(run, world, ready, &mut ticks, &mut unseen)? {
            Some(end) => return Ok(end),
            None => {}
        }
    }
    Ok(ServeEnd::TurnsSpent)
}
