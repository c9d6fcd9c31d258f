//! One call on a link: it is made where its way is awake and there is something to do, and the node is told what it did.

ghost use Rattle.std.specs.Prelude.{◌≡◌, ◌⊎◌, ◌<◌, ◌≤◌, true, false, length, take, IfOk};
ghost use Rattle.hb_world.specs.Answers.{ReadsWithin};
ghost use Rattle.hb_ready.specs.Registry.{kept};
ghost use Rattle.hb_turns.specs.Faults.{StaysWhole};
ghost use Rattle.hb_turns.specs.May.{MayFinish, MayRead, MayWrite, MayLook};
ghost use Rattle.hb_world.specs.Calls.{with_entries, read_entries};
ghost use Rattle.hb_turns.specs.Rested.{IsCalm, FinishRests, ReadRests, WriteRests, LookRests, MayNotRead, MayNotWrite};
ghost use Rattle.hb_turns.specs.Leads.{ReadsFirst};
ghost use Rattle.hb_turns.specs.Looks.{gained};
ghost use Rattle.hb_turns.specs.Reckons.{Adds, moved_by};
ghost use Rattle.hb_turns.specs.Stands.{Keeps, IsIdle};

use crate::node::Node;
use crate::run::Run;
use hb_base::NoMemory;
use hb_ready::Links;
use hb_world::{Finished, Looked, Read, World, Wrote};

/// Whether it may be asked whether a link is open.
fn may_finish(links: &Links, link: u64) -> bool
    ensures may { result ≡ true → MayFinish ((kept links.now).links link) }
    ensures rests { result ≡ false → FinishRests ((kept links.now).links link) }
{
    match links.get(link) {
        None => false,
        Some(known) => !known.is_open & !known.finish_sleeps,
    }
}

/// Whether a read may be made on a link.
fn may_read(links: &Links, link: u64) -> bool
    ensures may { result ≡ true → MayRead ((kept links.now).links link) }
    ensures rests { result ≡ false → MayNotRead ((kept links.now).links link) }
{
    match links.get(link) {
        None => false,
        Some(known) => known.is_open & !known.read_sleeps,
    }
}

/// Whether a write may be made on a link.
fn may_write(links: &Links, link: u64) -> bool
    ensures may { result ≡ true → MayWrite ((kept links.now).links link) }
    ensures rests { result ≡ false → MayNotWrite ((kept links.now).links link) }
{
    match links.get(link) {
        None => false,
        Some(known) => known.is_open & !known.write_sleeps,
    }
}

/// Whether a look may be made at a link: its peer sends no more, and a wait named it since.
fn may_look(links: &Links, link: u64) -> bool
    ensures may { result ≡ true → MayLook ((kept links.now).links link) }
    ensures rests { result ≡ false → LookRests ((kept links.now).links link) }
{
    match links.get(link) {
        None => false,
        Some(known) => known.is_open & known.has_ended & !known.look_sleeps,
    }
}

/// Asks whether a link that isn't open is. Says whether anything moved.
pub(crate) fn finish<W: World, N: Node>(
    run: &mut Run<N>,
    world: &mut W,
    link: u64,
) -> Result<bool, NoMemory>
    ensures keeps { IsIdle (N.shown run.old.node) → Keeps N.stands N.shown result run.old (W.trace world.old) run.new (W.trace world.new) }
    ensures still { IfOk result (λ moved. moved ≡ false → run.new.node ≡ run.old.node) }
    ensures rests { IfOk result (λ moved. moved ≡ false → IsCalm run.old run.new × FinishRests ((kept run.new.records.links).links link)) }
    ensures adds { Adds (moved_by result) 0 (W.trace world.old) (W.trace world.new) }
    ensures stays { StaysWhole (W.seen world.old) (W.seen world.new) }
{
    if !may_finish(&run.records.links, link) {
        return Ok(false);
    }
    match world.finish(link) {
        Finished::Opened => {
            run.records.links.opened(link);
            run.node.opened(link)?;
            Ok(true)
        }
        Finished::Balked => {
            run.records.links.finish_balked(link);
            Ok(false)
        }
        Finished::Failed => {
            run.node.broke(link);
            Ok(true)
        }
        Finished::NoMemory => Err(NoMemory),
    }
}

/// Reads at most so many bytes to the buffer's front.
fn read_front<W: World>(world: &mut W, link: u64, buffer: &mut [u8], most: usize) -> Read
    requires some { 0 < most }
    requires room { most ≤ length buffer.old }
    ensures adds { W.trace world.new ≡ with_entries (read_entries link buffer.new result) (W.trace world.old) }
    ensures within { ReadsWithin (take most buffer.new) result }
    ensures same { length buffer.new ≡ length buffer.old }
    ensures stays { StaysWhole (W.seen world.old) (W.seen world.new) }
{
    world.read(link, &mut buffer[..most])
}

/// Reads at most so many bytes to the front of the run's buffer.
fn read_into<W: World, N>(run: &mut Run<N>, world: &mut W, link: u64, most: usize) -> Read
    requires some { 0 < most }
    requires room { most ≤ length run.old.buffer.items }
    ensures adds { W.trace world.new ≡ with_entries (read_entries link run.new.buffer.items result) (W.trace world.old) }
    ensures within { ReadsWithin (take most run.new.buffer.items) result }
    ensures node { run.new.node ≡ run.old.node }
    ensures records { run.new.records ≡ run.old.records }
    ensures taken { run.new.taken ≡ run.old.taken }
    ensures stays { StaysWhole (W.seen world.old) (W.seen world.new) }
{
    read_front(world, link, &mut run.buffer, most)
}

/// Reads what the node wants. Says whether anything moved.
fn read<W: World, N: Node>(run: &mut Run<N>, world: &mut W, link: u64) -> Result<bool, NoMemory>
    ensures keeps { IsIdle (N.shown run.old.node) → Keeps N.stands N.shown result run.old (W.trace world.old) run.new (W.trace world.new) }
    ensures still { IfOk result (λ moved. moved ≡ false → run.new.node ≡ run.old.node) }
    ensures rests { IfOk result (λ moved. moved ≡ false → IsCalm run.old run.new
        × ReadRests ((kept run.new.records.links).links link) link (N.shown run.new.node)) }
    ensures adds { Adds (moved_by result) (gained result) (W.trace world.old) (W.trace world.new) }
    ensures leads { ReadsFirst (IfOk result (λ moved. ReadRests ((kept run.old.records.links).links link) link (N.shown run.old.node)))
        N.shown run.old link (W.trace world.old) (W.trace world.new) }
    ensures stays { StaysWhole (W.seen world.old) (W.seen world.new) }
{
    if !may_read(&run.records.links, link) {
        return Ok(false);
    }
    let wanted = run.node.wants(link);
    if wanted == 0 {
        return Ok(false);
    }
    let most = wanted.min(run.buffer.len());
    // The buffer has no room for a byte.
    if most == 0 {
        return Err(NoMemory);
    }
    match read_into(run, world, link, most) {
        Read::Got(n) => {
            run.node.take_bytes(link, &run.buffer[..n])?;
            Ok(true)
        }
        Read::End => {
            run.records.links.ended(link);
            run.node.ended(link);
            Ok(true)
        }
        Read::Balked => {
            run.records.links.read_balked(link);
            Ok(false)
        }
        Read::Failed => {
            run.node.broke(link);
            Ok(true)
        }
        Read::NoMemory => Err(NoMemory),
    }
}

/// Writes what waits. Says whether anything moved.
pub(crate) fn write<W: World, N: Node>(
    run: &mut Run<N>,
    world: &mut W,
    link: u64,
) -> Result<bool, NoMemory>
    ensures keeps { ((N.shown run.old.node).idle ≡ true) ⊎ ((N.shown run.old.node).last_words link ≡ true)
        → Keeps N.stands N.shown result run.old (W.trace world.old) run.new (W.trace world.new) }
    ensures still { IfOk result (λ moved. moved ≡ false → run.new.node ≡ run.old.node) }
    ensures rests { IfOk result (λ moved. moved ≡ false → IsCalm run.old run.new
        × WriteRests ((kept run.new.records.links).links link) link (N.shown run.new.node)) }
    ensures adds { Adds (moved_by result) 0 (W.trace world.old) (W.trace world.new) }
    ensures stays { StaysWhole (W.seen world.old) (W.seen world.new) }
{
    if !may_write(&run.records.links, link) {
        return Ok(false);
    }
    let output = run.node.output(link);
    if output.is_empty() {
        return Ok(false);
    }
    match world.write(link, output) {
        Wrote::Took(n) => {
            run.node.wrote(link, n);
            Ok(true)
        }
        Wrote::Balked => {
            run.records.links.write_balked(link);
            Ok(false)
        }
        Wrote::Failed => {
            run.node.broke(link);
            Ok(true)
        }
        Wrote::NoMemory => Err(NoMemory),
    }
}

/// Looks at a link whose peer sends no more: no read tells any longer that it broke. Says whether anything moved.
pub(crate) fn look<W: World, N: Node>(
    run: &mut Run<N>,
    world: &mut W,
    link: u64,
) -> Result<bool, NoMemory>
    ensures keeps { IsIdle (N.shown run.old.node) → Keeps N.stands N.shown result run.old (W.trace world.old) run.new (W.trace world.new) }
    ensures still { IfOk result (λ moved. moved ≡ false → run.new.node ≡ run.old.node) }
    ensures rests { IfOk result (λ moved. moved ≡ false → IsCalm run.old run.new × LookRests ((kept run.new.records.links).links link)) }
    ensures adds { Adds (moved_by result) 0 (W.trace world.old) (W.trace world.new) }
    ensures stays { StaysWhole (W.seen world.old) (W.seen world.new) }
{
    if !may_look(&run.records.links, link) {
        return Ok(false);
    }
    match world.look(link) {
        Looked::Fine => {
            run.records.links.look_balked(link);
            Ok(false)
        }
        Looked::Failed => {
            run.node.broke(link);
            Ok(true)
        }
        Looked::NoMemory => Err(NoMemory),
    }
}

/// Reads what the node wants, and writes the link's last words, where the read makes some. Says whether anything moved.
pub(crate) fn read_last<W: World, N: Node>(
    run: &mut Run<N>,
    world: &mut W,
    link: u64,
) -> Result<bool, NoMemory>
    ensures keeps { IsIdle (N.shown run.old.node) → Keeps N.stands N.shown result run.old (W.trace world.old) run.new (W.trace world.new) }
    ensures still { IfOk result (λ moved. moved ≡ false → run.new.node ≡ run.old.node) }
    ensures rests { IfOk result (λ moved. moved ≡ false → IsCalm run.old run.new
        × ReadRests ((kept run.new.records.links).links link) link (N.shown run.new.node)) }
    ensures adds { Adds (moved_by result) (gained result) (W.trace world.old) (W.trace world.new) }
    ensures leads { ReadsFirst (IfOk result (λ moved. ReadRests ((kept run.old.records.links).links link) link (N.shown run.old.node)))
        N.shown run.old link (W.trace world.old) (W.trace world.new) }
    ensures stays { StaysWhole (W.seen world.old) (W.seen world.new) }
{
    let came = read(run, world, link)?;
    if !came {
        return Ok(false);
    }
    if !run.node.last_words(link) {
        return Ok(true);
    }
    let _ = write(run, world, link)?;
    Ok(true)
}
