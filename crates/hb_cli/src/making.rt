//! `make`: a script that is made, and its text or the totals of its run.

ghost use Rattle.std.specs.Prelude.{◌≡◌, ◌≤◌, [], IfOk};
ghost use Rattle.hb_audit.specs.HeldBy.{each, answers_by};
ghost use Rattle.hb_make.specs.Made.{made};
ghost use Rattle.hb_cli.specs.Replaying.{run_state};
ghost use Rattle.hb_script.specs.Spelling.{lines_text};
ghost use Rattle.hb_serve.specs.Served.{heard_of};
ghost use Rattle.hb_words.specs.AskedRun.{replay_seen};
ghost use Rattle.hb_words.specs.Make.{most_tunnels};
ghost use Rattle.hb_cli.specs.Making.{made_run, made_text, RunsAt, MakesAt};
ghost use Rattle.hb_cli.specs.Printing.{PrintsAt};
ghost use Rattle.hb_cli.specs.Use.{used};

use crate::answer::print_whole;
use crate::replaying::replay_lines;
use crate::serving::print_total;
use crate::telling::tell;
use hb_audit::{Audit, Audits};
use hb_base::{Ip, NoMemory, Sink, Target};
use hb_make::{lines_made, put_made};
use hb_turns::Keep;
use hb_words::{Make, Replay, RunWords};
use hb_world::ScriptWorld;
use std::alloc::Global;

/// What the run of a made script asks.
fn made_run() -> Replay<'static>
    ensures { replay_seen result ≡ made_run }
{
    Replay {
        run: RunWords {
            node: "n1",
            id: "z1",
            discovery: Target {
                ip: Ip::V4(0x0a00_0001),
                port: 15010,
            },
            inbound: Some(Target {
                ip: Ip::V4(0),
                port: 15008,
            }),
            outbound: None,
            plain: None,
            network: "",
            hbone_port: 15008,
            tunnels: 4096,
            turns: u64::MAX,
        },
        trace: false,
        brief: true,
    }
}

/// The text of a script of so many tunnels.
fn text_of(alloc: Global, count: u32) -> Result<Vec<u8>, NoMemory>
    requires { count ≤ most_tunnels }
    ensures { IfOk result (λ text. text.items ≡ lines_text (made count)) }
{
    let mut text = Vec::new(alloc);
    put_made(alloc, count, &mut text)?;
    Ok(text)
}

/// Prints the text of a script. Gives the status.
fn print_made<K: Sink, E: Sink>(alloc: Global, make: &Make, out: &mut K, err: &mut E) -> u8
    requires { make.now.count ≤ most_tunnels }
    ensures text { PrintsAt (made_text make.now)
        (used K.written K.faults out.old out.new) (used E.written E.faults err.old err.new) result }
    ensures later_out { K.faults out.old ≤ K.faults out.new }
    ensures later_err { E.faults err.old ≤ E.faults err.new }
{
    let Ok(text) = text_of(alloc, make.count) else {
        return tell(err, b"hbone: out of memory\n", 9);
    };
    print_whole(text.as_slice(), out, err)
}

/// Runs the proxy over the lines of a script in whose world nothing happened yet, tells its notes to the audits, prints its totals,
/// and tells how the run ended. Gives the status.
fn run_made<K: Sink, E: Sink, A: Audit>(
    alloc: Global,
    make: &Make,
    out: &mut K,
    err: &mut E,
    keep: &mut Keep,
    audits: &mut Audits<A>,
    script: &mut ScriptWorld,
) -> u8
    requires range { make.now.count ≤ most_tunnels }
    requires lines { script.old.lines ≡ [] }
    requires trace { script.old.trace ≡ [] }
    ensures runs { RunsAt make.now (heard_of (answers_by A.notes A.answers) (each audits.old) (each audits.new))
        (run_state script.new keep.new)
        (used K.written K.faults out.old out.new) (used E.written E.faults err.old err.new) result }
    ensures later_out { K.faults out.old ≤ K.faults out.new }
    ensures later_err { E.faults err.old ≤ E.faults err.new }
{
    let Ok(lines) = lines_made(alloc, make.count) else {
        return tell(err, b"hbone: out of memory\n", 9);
    };
    let Ok(told) = replay_lines(alloc, &made_run(), lines, keep, audits, script) else {
        return tell(err, b"hbone: out of memory\n", 9);
    };
    print_total(&told, out, err)
}

/// Makes a script of at most 1,000 tunnels. Prints its text, or runs the proxy over it, as a replay does, in whose world nothing
/// happened yet, and prints the totals. Gives the status.
pub fn make_script<K: Sink, E: Sink, A: Audit>(
    alloc: Global,
    make: &Make,
    out: &mut K,
    err: &mut E,
    keep: &mut Keep,
    audits: &mut Audits<A>,
    script: &mut ScriptWorld,
) -> u8
    requires range { make.now.count ≤ most_tunnels }
    requires lines { script.old.lines ≡ [] }
    requires trace { script.old.trace ≡ [] }
    ensures makes { MakesAt make.now (heard_of (answers_by A.notes A.answers) (each audits.old) (each audits.new))
        (run_state script.old keep.old) (run_state script.new keep.new)
        (used K.written K.faults out.old out.new) (used E.written E.faults err.old err.new) result }
    ensures later_out { K.faults out.old ≤ K.faults out.new }
    ensures later_err { E.faults err.old ≤ E.faults err.new }
{
    if make.run {
        run_made(alloc, make, out, err, keep, audits, script)
    } else {
        print_made(alloc, make, out, err)
    }
}
