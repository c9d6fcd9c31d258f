//! Listens at the doors that are given, before anything else.

ghost use Rattle.std.specs.Prelude.{◌≡◌, ◌++◌, [], Some, List, IfSome, false};
ghost use Rattle.hb_world.specs.declared.entry.Entry.{Entry};
ghost use Rattle.hb_turns.specs.Faults.{CountsWhole};
ghost use Rattle.hb_turns.specs.Ends.{is_fault_of_turn, is_spent_by};
ghost use Rattle.hb_turns.specs.Listens.{DoorAt, given, given_at};
ghost use Rattle.hb_turns.specs.Reckons.{Begins, Begun};

use crate::node::Node;
use crate::run::Run;
use crate::served::ServeEnd;
use crate::words::Doors;
use hb_base::{Door, NoMemory, Target};
use hb_world::{Listened, World};

/// Listens at a door, where it is given. The end, where that failed.
fn listen_at<W: World, N: Node>(
    run: &mut Run<N>,
    world: &mut W,
    door: Door,
    at: Option<Target>,
) -> Result<Option<ServeEnd>, NoMemory>
    ensures begun { (made : List DoorAt) → IfSome (W.trace world.old) (Begins N.stands N.shown run.old made)
        → IfSome (W.trace world.new) (Begun N.stands N.shown result run.new (made ++ given_at door at)) }
    ensures links { run.new.records.links ≡ run.old.records.links }
    ensures node { run.new.node ≡ run.old.node }
    ensures faults { CountsWhole (W.seen world.old) (W.seen world.new) (is_fault_of_turn result) }
    ensures unspent { is_spent_by result ≡ false }
{
    let Some(at) = at else {
        return Ok(None);
    };
    match world.listen(at, door) {
        Listened::Listening => {
            run.records.asked.set(door, false);
            Ok(None)
        }
        Listened::Failed => {
            run.records.asked.set(door, false);
            Ok(Some(ServeEnd::WorldFault))
        }
        Listened::NoMemory => Err(NoMemory),
    }
}

/// Listens at the doors that are given, in the order inbound, outbound, plain. The end, where a listen failed.
pub(crate) fn listen<W: World, N: Node>(
    run: &mut Run<N>,
    world: &mut W,
    doors: Doors,
) -> Result<Option<ServeEnd>, NoMemory>
    ensures begun { IfSome (W.trace world.old) (Begins N.stands N.shown run.old [])
        → IfSome (W.trace world.new) (Begun N.stands N.shown result run.new (given doors)) }
    ensures links { run.new.records.links ≡ run.old.records.links }
    ensures node { run.new.node ≡ run.old.node }
    ensures faults { CountsWhole (W.seen world.old) (W.seen world.new) (is_fault_of_turn result) }
    ensures unspent { is_spent_by result ≡ false }
{
    match listen_at(run, world, Door::Inbound, doors.inbound)? {
        Some(end) => return Ok(Some(end)),
        None => {}
    }
    match listen_at(run, world, Door::Outbound, doors.outbound)? {
        Some(end) => return Ok(Some(end)),
        None => {}
    }
    listen_at(run, world, Door::Plain, doors.plain)
}
