//! A run of the proxy, from its start to its end.

ghost use Rattle.std.specs.Prelude.{◌≡◌, [], Some, IfSome};
ghost use Rattle.hb_audit.specs.HeldBy.{each, answers_by};
ghost use Rattle.hb_turns.specs.Ends.{is_fault};
ghost use Rattle.hb_turns.specs.Faults.{CountsWhole};
ghost use Rattle.hb_serve.specs.Served.{loop_words, heard_of, Serves};

use crate::asked::{Asked, Given};
use crate::words::ServeWords;
use hb_audit::{Audit, Audits};
use hb_held::OwnDoors;
use hb_turns::{Doors, Keep, ServeWords as LoopWords, Served, serve as run};
use hb_whole::Proxy;
use hb_world::World;
use std::alloc::Global;
use std::marker::Brand;
use std::mem;

/// What the event loop is asked for.
fn loop_words(doors: OwnDoors, turns: u64, ticks: Option<u64>) -> LoopWords
    ensures { result ≡ loop_words doors turns ticks }
{
    LoopWords {
        doors: Doors {
            inbound: doors.inbound,
            outbound: doors.outbound,
            plain: doors.plain,
        },
        turns,
        ticks,
    }
}

/// Runs the proxy that contracts know to be asked for so.
fn serve_asked<G: Given<A>, A: Audit, W: World>(
    alloc: Global,
    words: ServeWords,
    keep: &mut Keep,
    audits: &mut Audits<A>,
    world: &mut W,
) -> Served
    requires config { words.config ≡ G.config }
    requires before { each audits.old ≡ G.before }
    ensures served { W.trace world.old ≡ Some [] → IfSome (W.trace world.new)
        (Serves words result keep.new (heard_of (answers_by A.notes A.answers) (each audits.old) (each audits.new))) }
    ensures faults { CountsWhole (W.seen world.old) (W.seen world.new) (is_fault result.end) }
{
    let asked = loop_words(words.config.doors, words.turns, words.ticks);
    let Ok(proxy) = Proxy::new(alloc, words.config) else {
        return Served::nothing();
    };
    let told = mem::replace(audits, Audits::none(alloc));
    let (served, node) = run(alloc, Asked::<G, A>::over(proxy, told), asked, keep, world);
    *audits = node.into_audits();
    served
}

/// Runs the proxy over a world: it listens at each door that is given, then goes on until a listen or a wait fails, a wait tells a stop,
/// the ticks passed or the turns are spent, or memory lacks. Then each link is closed. Each note is told to the audits when it is made, and
/// one that doesn't keep it is dropped. The keep holds the notes of this run alone. Where memory lacks for the proxy itself, nothing is
/// done.
pub fn serve<A: Audit, W: World>(
    alloc: Global,
    words: ServeWords,
    keep: &mut Keep,
    audits: &mut Audits<A>,
    world: &mut W,
) -> Served
    ensures served { W.trace world.old ≡ Some [] → IfSome (W.trace world.new)
        (Serves words result keep.new (heard_of (answers_by A.notes A.answers) (each audits.old) (each audits.new))) }
    ensures faults { CountsWhole (W.seen world.old) (W.seen world.new) (is_fault result.end) }
{
    serve_asked::<Brand, A, W>(alloc, words, keep, audits, world)
}
