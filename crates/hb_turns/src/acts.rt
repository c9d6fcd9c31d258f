//! The calls that are due.

ghost use Rattle.std.specs.Prelude.{◌≡◌, ◌<◌, ◌+◌, ℕ, true, false, Some, IfOk, OnOk, List, [], length, if◌then◌else◌};
ghost use Rattle.std.specs.Option.{is_some};
ghost use Rattle.hb_world.specs.declared.entry.Entry.{Entry};
ghost use Rattle.hb_base.specs.declared.door.Door.{Door};
ghost use Rattle.hb_base.specs.declared.door.Why.{Why};
ghost use Rattle.hb_base.specs.declared.target.Target.{Target};
ghost use Rattle.hb_world.specs.declared.entry.Entry.TheVariants as e;
ghost use Rattle.hb_ready.specs.Registry.{kept, HasRoom};
ghost use Rattle.hb_turns.specs.Faults.{StaysWhole};
ghost use Rattle.hb_turns.specs.Ends.{is_lack};
ghost use Rattle.hb_turns.specs.Reckons.{Adds};
ghost use Rattle.hb_turns.specs.Stands.{Keeps, Left, WatchedBy, Tracks, Matches, Stands, IsIdle, revoked_behind};
ghost use Rattle.hb_turns.specs.Shown.{Shown, IsSame};
ghost use Rattle.hb_turns.specs.Totals.{was_dialled};

use crate::node::Node;
use crate::run::{Records, Run};
use hb_base::{Cause, NoMemory, Target, Why};
use hb_ready::Link;
use hb_world::{Act, Born, World};

/// Memory lacked.
fn lacked(cause: Cause) -> bool
    ensures { result ≡ is_lack cause }
{
    match cause {
        Cause::NoMemory => true,
        _ => false,
    }
}

/// A link that lives was dialled.
fn was_dialled(link: Option<Link>) -> bool
    ensures { result ≡ was_dialled link }
{
    match link {
        Some(known) => known.is_dialled,
        None => false,
    }
}

/// How many dialled links were revoked, once this one is closed.
fn revoked_behind(records: &Records, link: u64, cause: Cause) -> u64
    ensures { result ≡ revoked_behind records.now (e.Closed link cause) }
{
    match cause {
        Cause::Revoked => {
            if was_dialled(records.links.get(link)) {
                records.revoked.saturating_add(1)
            } else {
                records.revoked
            }
        }
        _ => records.revoked,
    }
}

/// A link is closed.
pub(crate) fn forget(records: &mut Records, link: u64, cause: Cause)
    ensures tracks { Tracks records.old records.new (e.Closed link cause) }
    ensures listed { (kept records.new.links).listed ≡ (kept records.old.links).listed }
    ensures count { (kept records.new.links).count + (if is_some ((kept records.old.links).links link) then 1 else 0)
        ≡ (kept records.old.links).count }
{
    records.revoked = revoked_behind(records, link, cause);
    records.links.closed(link);
    if lacked(cause) {
        records.wanting = true;
    }
}

/// A link is born, and is to be tried.
pub(crate) fn enter(records: &mut Records, link: u64, is_open: bool)
    requires { HasRoom records.old.links }
    ensures accepted { (door : Door) → is_open ≡ true → Tracks records.old records.new (e.Accepted link door) }
    ensures dialled { (to : Target) (why : Why) → is_open ≡ false → Tracks records.old records.new (e.Dialled link to why) }
    ensures watched { (s : Shown) → WatchedBy (kept records.old.links) s → WatchedBy (kept records.new.links) s }
{
    records.births = link;
    records.links.born(link, is_open);
}

/// Dials, and tells the node what came of it.
fn dial<W: World, N: Node>(
    run: &mut Run<N>,
    world: &mut W,
    to: Target,
    why: Why,
) -> Result<(), NoMemory>
    ensures keeps { (N.shown run.old.node).dials ≡ Some (to, why)
        → Keeps N.stands N.shown result run.old (W.trace world.old) run.new (W.trace world.new) }
    ensures adds { Adds false 0 (W.trace world.old) (W.trace world.new) }
    ensures stays { StaysWhole (W.seen world.old) (W.seen world.new) }
{
    run.records.links.reserve()?;
    match world.dial(to, why) {
        Born::New(link) => {
            enter(&mut run.records, link, false);
            run.node.dialled(why, Some(link))?;
            Ok(())
        }
        Born::Failed => {
            run.node.dialled(why, None)?;
            Ok(())
        }
        Born::Balked => unreachable!(),
        Born::NoMemory => Err(NoMemory),
    }
}

/// Makes the call that is due, and says whether one was.
fn make_act<W: World, N: Node>(run: &mut Run<N>, world: &mut W) -> Result<bool, NoMemory>
    ensures keeps { Keeps N.stands N.shown result run.old (W.trace world.old) run.new (W.trace world.new) }
    ensures idle { IfOk result (λ made. made ≡ false → (N.shown run.new.node).idle ≡ true × (N.shown run.new.node).none_closes ≡ true) }
    ensures adds { Adds false 0 (W.trace world.old) (W.trace world.new) }
    ensures stays { StaysWhole (W.seen world.old) (W.seen world.new) }
{
    match run.node.next_act() {
        None => Ok(false),
        Some(Act::Close { link, cause }) => {
            world.close(link, cause);
            forget(&mut run.records, link, cause);
            Ok(true)
        }
        Some(Act::Shut { link }) => {
            world.shut(link);
            Ok(true)
        }
        Some(Act::Dial { to, why }) => {
            dial(run, world, to, why)?;
            Ok(true)
        }
    }
}

/// Makes all calls that are due.
///
/// Errors: `NoMemory`, also behind 2^64 - 1 acts in a row.
fn make_acts<W: World, N: Node>(run: &mut Run<N>, world: &mut W) -> Result<(), NoMemory>
    ensures keeps { Keeps N.stands N.shown result run.old (W.trace world.old) run.new (W.trace world.new) }
    ensures idle { OnOk result ((N.shown run.new.node).idle ≡ true × (N.shown run.new.node).none_closes ≡ true) }
    ensures adds { Adds false 0 (W.trace world.old) (W.trace world.new) }
    ensures stays { StaysWhole (W.seen world.old) (W.seen world.new) }
{
    for _act in 0..u64::MAX {
        if !make_act(run, world)? {
            return Ok(());
        }
    }
    Err(NoMemory)
}

/// Takes the next note, and says whether there was one.
///
/// Errors: `NoMemory`, and then the note is lost.
fn take_note<N: Node>(run: &mut Run<N>) -> Result<bool, NoMemory>
    ensures keeps { (trace : List Entry) → Matches N.stands N.shown run.old trace → OnOk result (Matches N.stands N.shown run.new trace) }
    ensures same { IsSame (N.shown run.old.node) (N.shown run.new.node) }
    ensures stirs { (l : ℕ) → (N.shown run.new.node).stirs l ≡ (N.shown run.old.node).stirs l }
    ensures taken { IfOk result (λ took. took ≡ false → (N.shown run.new.node).noted ≡ []) }
    ensures less { IfOk result (λ took. took ≡ true → length (N.shown run.new.node).noted < length (N.shown run.old.node).noted) }
    ensures records { run.new.records ≡ run.old.records }
{
    match run.node.next_note()? {
        None => Ok(false),
        Some(note) => {
            run.taken.add(note)?;
            Ok(true)
        }
    }
}

/// Takes each note.
///
/// Errors: `NoMemory`, and then a note is lost.
pub(crate) fn take_notes<N: Node>(run: &mut Run<N>) -> Result<(), NoMemory>
    ensures keeps { (trace : List Entry) → Matches N.stands N.shown run.old trace → OnOk result (Matches N.stands N.shown run.new trace) }
    ensures same { IsSame (N.shown run.old.node) (N.shown run.new.node) }
    ensures stirs { (l : ℕ) → (N.shown run.new.node).stirs l ≡ (N.shown run.old.node).stirs l }
    ensures taken { OnOk result ((N.shown run.new.node).noted ≡ []) }
    ensures records { run.new.records ≡ run.old.records }
{
    while take_note(run)? {}
    Ok(())
}

/// Puts the next link that stirred on the list, and says whether there was one.
fn hear<N: Node>(run: &mut Run<N>) -> bool
    ensures keeps { (trace : List Entry) → Stands N.stands N.shown run.old trace → Stands N.stands N.shown run.new trace }
    ensures same { IsSame (N.shown run.old.node) (N.shown run.new.node) }
    ensures noted { (N.shown run.new.node).noted ≡ (N.shown run.old.node).noted }
    ensures heard { result ≡ false → (l : ℕ) → (N.shown run.new.node).stirs l ≡ false }
{
    match run.node.next_stirred() {
        None => false,
        Some(link) => {
            run.records.links.list(link);
            true
        }
    }
}

/// Puts each link that stirred on the list.
///
/// Errors: `NoMemory`, behind 2^64 - 1 of them in a row.
fn hear_all<N: Node>(run: &mut Run<N>) -> Result<(), NoMemory>
    ensures keeps { (trace : List Entry) → Stands N.stands N.shown run.old trace → Left N.stands N.shown result run.new trace }
    ensures same { IsSame (N.shown run.old.node) (N.shown run.new.node) }
    ensures noted { (N.shown run.new.node).noted ≡ (N.shown run.old.node).noted }
    ensures heard { OnOk result ((l : ℕ) → (N.shown run.new.node).stirs l ≡ false) }
{
    for _told in 0..u64::MAX {
        if !hear(run) {
            return Ok(());
        }
    }
    Err(NoMemory)
}

/// Behind something that moved: makes the calls that are due, takes each note, and puts each link that stirred on the list.
pub(crate) fn carry<W: World, N: Node>(run: &mut Run<N>, world: &mut W) -> Result<(), NoMemory>
    ensures keeps { Keeps N.stands N.shown result run.old (W.trace world.old) run.new (W.trace world.new) }
    ensures idle { OnOk result (IsIdle (N.shown run.new.node)) }
    ensures adds { Adds false 0 (W.trace world.old) (W.trace world.new) }
    ensures stays { StaysWhole (W.seen world.old) (W.seen world.new) }
{
    make_acts(run, world)?;
    take_notes(run)?;
    hear_all(run)
}
