//! The end of a run: the node is told, and each link is closed.

ghost use Rattle.std.specs.Prelude.{◌≡◌, ◌<◌, ℕ, true, false, None, Some, IfSome, OnOk};
ghost use Rattle.hb_ready.specs.Registry.{kept};
ghost use Rattle.hb_turns.specs.Faults.{StaysWhole};
ghost use Rattle.hb_turns.specs.Notes.{HasAllNotes};
ghost use Rattle.hb_turns.specs.Reckons.{Closes};
ghost use Rattle.hb_turns.specs.Shown.{StandsForNone};
ghost use Rattle.hb_turns.specs.Stands.{Obeys, Matches, Stands, StandsAlone};

use crate::acts::{forget, take_notes};
use crate::node::Node;
use crate::run::Run;
use hb_base::{Cause, NoMemory};
use hb_world::{Act, World};

/// Makes the close that is due, and says whether one was. Of a link that doesn't live nothing is done.
fn close_due<W: World, N: Node>(run: &mut Run<N>, world: &mut W, cause: Cause) -> bool
    requires { (N.shown run.old.node).ends_for ≡ Some cause }
    ensures ends_for { (N.shown run.new.node).ends_for ≡ Some cause }
    ensures obeys { IfSome (W.trace world.old) (Obeys N.stands N.shown run.old.records)
        → IfSome (W.trace world.new) (Obeys N.stands N.shown run.new.records) }
    ensures keeps { IfSome (W.trace world.old) (Matches N.stands N.shown run.old)
        → IfSome (W.trace world.new) (Matches N.stands N.shown run.new) }
    ensures closes { Closes cause (W.trace world.old) (W.trace world.new) }
    ensures none { result ≡ false → StandsForNone N.stands run.new.node }
    ensures stays { StaysWhole (W.seen world.old) (W.seen world.new) }
{
    match run.node.next_act() {
        None => false,
        Some(Act::Close { link, cause: why }) => {
            if run.records.links.get(link).is_none() {
                return true;
            }
            world.close(link, why);
            forget(&mut run.records, link, why);
            true
        }
        Some(Act::Dial { .. }) => unreachable!(),
        Some(Act::Shut { .. }) => unreachable!(),
    }
}

/// Makes each close that is due.
///
/// Errors: `NoMemory`, behind 2^64 - 1 of them in a row.
fn close_dues<W: World, N: Node>(
    run: &mut Run<N>,
    world: &mut W,
    cause: Cause,
) -> Result<(), NoMemory>
    requires { (N.shown run.old.node).ends_for ≡ Some cause }
    ensures obeys { IfSome (W.trace world.old) (Obeys N.stands N.shown run.old.records)
        → IfSome (W.trace world.new) (Obeys N.stands N.shown run.new.records) }
    ensures alone { OnOk result (IfSome (W.trace world.old) (Matches N.stands N.shown run.old)
        → IfSome (W.trace world.new) (StandsAlone N.stands N.shown run.new)) }
    ensures closes { Closes cause (W.trace world.old) (W.trace world.new) }
    ensures stays { StaysWhole (W.seen world.old) (W.seen world.new) }
{
    for _close in 0..u64::MAX {
        if !close_due(run, world, cause) {
            return Ok(());
        }
    }
    Err(NoMemory)
}

/// Closes a link that lives, and says whether one did.
fn close_one<W: World, N: Node>(run: &mut Run<N>, world: &mut W, cause: Cause) -> bool
    ensures obeys { IfSome (W.trace world.old) (Obeys N.stands N.shown run.old.records)
        → IfSome (W.trace world.new) (Obeys N.stands N.shown run.new.records) }
    ensures alone { IfSome (W.trace world.old) (StandsAlone N.stands N.shown run.old)
        → IfSome (W.trace world.new) (StandsAlone N.stands N.shown run.new) }
    ensures closes { Closes cause (W.trace world.old) (W.trace world.new) }
    ensures none { result ≡ false → (l : ℕ) → (kept run.new.records.links).links l ≡ None }
    ensures less { result ≡ true → (kept run.new.records.links).count < (kept run.old.records.links).count }
    ensures stays { StaysWhole (W.seen world.old) (W.seen world.new) }
{
    match run.records.links.any() {
        None => false,
        Some(link) => {
            world.close(link, cause);
            forget(&mut run.records, link, cause);
            true
        }
    }
}

/// Closes each link that lives.
fn close_all<W: World, N: Node>(run: &mut Run<N>, world: &mut W, cause: Cause)
    ensures obeys { IfSome (W.trace world.old) (Obeys N.stands N.shown run.old.records)
        → IfSome (W.trace world.new) (Obeys N.stands N.shown run.new.records) }
    ensures alone { IfSome (W.trace world.old) (StandsAlone N.stands N.shown run.old)
        → IfSome (W.trace world.new) (StandsAlone N.stands N.shown run.new) }
    ensures closes { Closes cause (W.trace world.old) (W.trace world.new) }
    ensures none { (l : ℕ) → (kept run.new.records.links).links l ≡ None }
    ensures stays { StaysWhole (W.seen world.old) (W.seen world.new) }
{
    while close_one(run, world, cause) {}
}

/// The run ends: the node is told, the closes are made that are due, a link that the node doesn't hold is closed, and each note is
/// taken.
///
/// Errors: `NoMemory`, and then a note is lost; also behind 2^64 - 1 closes in a row that were due.
pub(crate) fn end_run<W: World, N: Node>(
    run: &mut Run<N>,
    world: &mut W,
    cause: Cause,
) -> Result<(), NoMemory>
    ensures obeys { IfSome (W.trace world.old) (Obeys N.stands N.shown run.old.records)
        → IfSome (W.trace world.new) (Obeys N.stands N.shown run.new.records) }
    ensures noted { OnOk result ((N.shown run.old.node).none_closes ≡ true → IfSome (W.trace world.old) (Stands N.stands N.shown run.old)
        → IfSome (W.trace world.new) (HasAllNotes N.stands N.shown run.new)) }
    ensures closes { Closes cause (W.trace world.old) (W.trace world.new) }
    ensures none { (l : ℕ) → (kept run.new.records.links).links l ≡ None }
    ensures stays { StaysWhole (W.seen world.old) (W.seen world.new) }
{
    run.node.stop(cause);
    let made = close_dues(run, world, cause);
    close_all(run, world, cause);
    made?;
    take_notes(run)
}
