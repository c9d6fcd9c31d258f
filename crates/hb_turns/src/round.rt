//! A round: the link that goes first is read, each door that a wait or a glance named accepts at most one link, and the links on the
//! list are tried once, until 64 of these tries moved something.

ghost use Rattle.std.specs.Prelude.{⊤, ◌≡◌, ◌≤◌, ℕ, ◌∷◌, ◌++◌, [], true, false, drop, length, IfOk, List, if◌then◌else◌};
ghost use Rattle.hb_world.specs.declared.entry.Entry.{Entry};
ghost use Rattle.hb_ready.specs.Registry.{kept};
ghost use Rattle.hb_ready.specs.Kept.{rotated};
ghost use Rattle.hb_turns.specs.Faults.{StaysWhole};
ghost use Rattle.hb_turns.specs.Leads.{CallReads, Heads, LeadsOn};
ghost use Rattle.hb_turns.specs.Looks.{gained, gained_by};
ghost use Rattle.hb_turns.specs.Reckons.{Adds, moved_by, made_by, some_by, Tried};
ghost use Rattle.hb_ready.specs.Sight.{asked_at};
ghost use Rattle.hb_turns.specs.Rested.{IsCalm, IsDropped, CallRests};
ghost use Rattle.hb_turns.specs.Settled.{Rests};
ghost use Rattle.hb_turns.specs.Stands.{Keeps, IsIdle, Stands};
ghost use Rattle.hb_turns.specs.Woken.{IsQuiet};

use crate::acts::{carry, enter};
use crate::link::{finish, look, read_last, write};
use crate::node::Node;
use crate::run::Run;
use hb_base::{Door, NoMemory};
use hb_world::{Born, World};

/// A round ends once so many tries of links moved something.
const MOST_TRIES: u64 = 64;

/// A call at a door or on a link.
#[derive(Clone, Copy)]
enum Call {
    Accept(Door),
    Finish(u64),
    Read(u64),
    Write(u64),
    Look(u64),
}

/// A door that a wait named accepts at most one link. Says whether it did.
fn accept<W: World, N: Node>(run: &mut Run<N>, world: &mut W, door: Door) -> Result<bool, NoMemory>
    ensures keeps { IsIdle (N.shown run.old.node) → Keeps N.stands N.shown result run.old (W.trace world.old) run.new (W.trace world.new) }
    ensures still { IfOk result (λ moved. moved ≡ false → run.new.node ≡ run.old.node) }
    ensures rests { IfOk result (λ moved. moved ≡ false → IsCalm run.old run.new × (asked_at run.new.records.asked door ≡ false)) }
    ensures adds { Adds (moved_by result) (gained result) (W.trace world.old) (W.trace world.new) }
    ensures stays { StaysWhole (W.seen world.old) (W.seen world.new) }
{
    if !run.records.asked.at(door) {
        return Ok(false);
    }
    run.records.links.reserve()?;
    match world.accept(door) {
        Born::New(link) => {
            enter(&mut run.records, link, true);
            run.node.accepted(link, door)?;
            Ok(true)
        }
        Born::Balked => {
            run.records.asked.set(door, false);
            Ok(false)
        }
        Born::Failed => {
            run.records.asked.set(door, false);
            Ok(false)
        }
        Born::NoMemory => Err(NoMemory),
    }
}

/// Makes a call. Says whether anything moved.
fn make_call<W: World, N: Node>(
    run: &mut Run<N>,
    world: &mut W,
    call: Call,
) -> Result<bool, NoMemory>
    ensures keeps { IsIdle (N.shown run.old.node) → Keeps N.stands N.shown result run.old (W.trace world.old) run.new (W.trace world.new) }
    ensures still { IfOk result (λ moved. moved ≡ false → run.new.node ≡ run.old.node) }
    ensures rests { IfOk result (λ moved. moved ≡ false → IsCalm run.old run.new × CallRests N.shown call run.new) }
    ensures adds { Adds (moved_by result) (gained_by call result) (W.trace world.old) (W.trace world.new) }
    ensures leads { CallReads N.shown result run.old call (W.trace world.old) (W.trace world.new) }
    ensures stays { StaysWhole (W.seen world.old) (W.seen world.new) }
{
    match call {
        Call::Accept(door) => accept(run, world, door),
        Call::Finish(link) => finish(run, world, link),
        Call::Read(link) => read_last(run, world, link),
        Call::Write(link) => write(run, world, link),
        Call::Look(link) => look(run, world, link),
    }
}

/// Makes a call, and does what is due behind it. Says whether anything moved.
fn try_call<W: World, N: Node>(
    run: &mut Run<N>,
    world: &mut W,
    call: Call,
) -> Result<bool, NoMemory>
    ensures tried { Tried N.stands N.shown (moved_by result) (gained_by call result) result
        run.old (W.trace world.old) run.new (W.trace world.new) }
    ensures leads { CallReads N.shown result run.old call (W.trace world.old) (W.trace world.new) }
    ensures rests { IfOk result (λ moved. moved ≡ false → IsCalm run.old run.new × CallRests N.shown call run.new) }
    ensures stays { StaysWhole (W.seen world.old) (W.seen world.new) }
{
    let moved = make_call(run, world, call)?;
    if !moved {
        return Ok(false);
    }
    carry(run, world)?;
    Ok(true)
}

/// A link is tried: at most one finish, one read, one look and two writes, and behind the read its last words. Says whether anything
/// moved.
fn try_link<W: World, N: Node>(run: &mut Run<N>, world: &mut W, link: u64) -> Result<bool, NoMemory>
    ensures tried { Tried N.stands N.shown (moved_by result) (gained result) result
        run.old (W.trace world.old) run.new (W.trace world.new) }
    ensures rests { IfOk result (λ moved. moved ≡ false → IsCalm run.old run.new
        × Rests ((kept run.new.records.links).links link) link (N.shown run.new.node)) }
    ensures stays { StaysWhole (W.seen world.old) (W.seen world.new) }
{
    let opened = try_call(run, world, Call::Finish(link))?;
    let came = try_call(run, world, Call::Read(link))?;
    let broke = try_call(run, world, Call::Look(link))?;
    let went = try_call(run, world, Call::Write(link))?;
    let more = try_call(run, world, Call::Write(link))?;
    Ok(opened | came | broke | went | more)
}

/// Whether a try of the link may move something: it lives, a way is awake, and there is something to do.
fn is_worth<N: Node>(run: &Run<N>, link: u64) -> bool
    ensures rests { result ≡ false → Rests ((kept run.now.records.links).links link) link (N.shown run.now.node) }
    ensures worth { result ≡ true → Rests ((kept run.now.records.links).links link) link (N.shown run.now.node) → ⊥ }
{
    match run.records.links.get(link) {
        None => false,
        Some(known) => {
            if !known.is_open {
                return !known.finish_sleeps;
            }
            if known.has_ended & !known.look_sleeps {
                return true;
            }
            if !known.read_sleeps & (run.node.wants(link) > 0) {
                return true;
            }
            !known.write_sleeps & !run.node.output(link).is_empty()
        }
    }
}

/// The number at the list's front goes to its end, where its link is worth another try, or leaves the list.
fn settle<N: Node>(run: &mut Run<N>)
    ensures keeps { (trace : List Entry) → Stands N.stands N.shown run.old trace → Stands N.stands N.shown run.new trace }
    ensures pops { (l : ℕ) → (kept run.old.records.links).listed ≡ l ∷ drop 1 (kept run.old.records.links).listed
        → Rests ((kept run.old.records.links).links l) l (N.shown run.old.node) → IsDropped 1 run.old run.new }
    ensures asked { run.new.records.asked ≡ run.old.records.asked }
    ensures empty { (kept run.old.records.links).listed ≡ [] → (kept run.new.records.links).listed ≡ [] }
    ensures node { run.new.node ≡ run.old.node }
{
    let Some(link) = run.records.links.front() else {
        return;
    };
    if is_worth(run, link) {
        run.records.links.rotate();
    } else {
        run.records.links.pop();
    }
}

/// The link at the list's front is tried. Says whether anything moved.
fn try_front<W: World, N: Node>(run: &mut Run<N>, world: &mut W) -> Result<bool, NoMemory>
    ensures tried { Tried N.stands N.shown (moved_by result) (gained result) result
        run.old (W.trace world.old) run.new (W.trace world.new) }
    ensures rests { IfOk result (λ moved. moved ≡ false → IsDropped 1 run.old run.new) }
    ensures stays { StaysWhole (W.seen world.old) (W.seen world.new) }
{
    let Some(link) = run.records.links.front() else {
        return Ok(false);
    };
    let moved = try_link(run, world, link)?;
    settle(run);
    Ok(moved)
}

/// One, where something moved.
fn once(moved: bool) -> u64
    ensures { result ≡ (if moved then 1 else 0) }
{
    if moved { 1 } else { 0 }
}

/// The links on the list are tried once, until 64 of the tries moved something. Says how many did.
fn try_links<W: World, N: Node>(run: &mut Run<N>, world: &mut W) -> Result<u64, NoMemory>
    ensures tried { Tried N.stands N.shown (some_by result) (made_by 64 result) result
        run.old (W.trace world.old) run.new (W.trace world.new) }
    ensures most { IfOk result (λ made. made ≤ 64) }
    ensures rests { IfOk result (λ made. made ≡ 0 → IsDropped (length (kept run.old.records.links).listed) run.old run.new) }
    ensures stays { StaysWhole (W.seen world.old) (W.seen world.new) }
{
    let mut made = 0;
    for _try in 0..run.records.links.len() {
        let moved = try_front(run, world)?;
        made += once(moved);
        if made == MOST_TRIES {
            return Ok(made);
        }
    }
    Ok(made)
}

/// What may be read on the link that goes first is read, at most once. Says whether anything moved.
fn read_first<W: World, N: Node>(run: &mut Run<N>, world: &mut W) -> Result<bool, NoMemory>
    ensures tried { Tried N.stands N.shown (moved_by result) (gained result) result
        run.old (W.trace world.old) run.new (W.trace world.new) }
    ensures leads { Heads (IfOk result (λ moved. (x : Entry)
        → LeadsOn (N.shown run.old.node).first (kept run.old.records.links).links (N.shown run.old.node) x))
        (LeadsOn (N.shown run.old.node).first (kept run.old.records.links).links (N.shown run.old.node))
        (W.trace world.old) (W.trace world.new) }
    ensures stays { StaysWhole (W.seen world.old) (W.seen world.new) }
{
    match run.node.first() {
        None => Ok(false),
        Some(link) => try_call(run, world, Call::Read(link)),
    }
}

/// A round: the link that goes first, the doors, the links on the list. Says how many tries moved something.
pub(crate) fn round<W: World, N: Node>(run: &mut Run<N>, world: &mut W) -> Result<u64, NoMemory>
    ensures tried { Tried N.stands N.shown (some_by result) (made_by 68 result) result
        run.old (W.trace world.old) run.new (W.trace world.new) }
    ensures most { IfOk result (λ made. made ≤ 68) }
    ensures rests { IfOk result (λ made. made ≡ 0 → IsQuiet run.new.records) }
    ensures leads { Heads ⊤ (LeadsOn (N.shown run.old.node).first (kept run.old.records.links).links (N.shown run.old.node))
        (W.trace world.old) (W.trace world.new) }
    ensures stays { StaysWhole (W.seen world.old) (W.seen world.new) }
{
    let first = read_first(run, world)?;
    let inbound = try_call(run, world, Call::Accept(Door::Inbound))?;
    let outbound = try_call(run, world, Call::Accept(Door::Outbound))?;
    let plain = try_call(run, world, Call::Accept(Door::Plain))?;
    let links = try_links(run, world)?;
    Ok(once(first) + once(inbound) + once(outbound) + once(plain) + links)
}
