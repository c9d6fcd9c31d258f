//! The top call: words and input in, answer and status out.

ghost use Rattle.std.specs.Prelude.{◌≡◌, ◌≤◌, [], IsTrue, IfOk, map, Ok, Err};
ghost use Rattle.std.specs.Result.{MatchResult};
ghost use Rattle.std.specs.String.{string_bytes};
ghost use Rattle.hb_audit.specs.HeldBy.{each, answers_by};
ghost use Rattle.hb_base.specs.Outcome.{Answers};
ghost use Rattle.hb_cli.specs.Replaying.{done_by, run_state};
ghost use Rattle.hb_serve.specs.Served.{heard_of};
ghost use Rattle.hb_words.specs.Asked.{command_of};
ghost use Rattle.hb_words.specs.AskedRun.{replay_seen};
ghost use Rattle.hb_words.specs.Command.{replays};
ghost use Rattle.hb_words.specs.Words.{words_of};
ghost use Rattle.hb_world.specs.Allowed.{Allowed};
ghost use Rattle.hb_cli.specs.Answer.{texts, found_texts, Suits};
ghost use Rattle.hb_cli.specs.Ending.{EndsWith, Others};
ghost use Rattle.hb_cli.specs.Hearing.{HearsOf, HearsBy};
ghost use Rattle.hb_cli.specs.Looking.{ComesTo, GivesUp};
ghost use Rattle.hb_cli.specs.Leaving.{LeavesOf, CommandLeaves, LeavesBy};
ghost use Rattle.hb_cli.specs.Run.{WritesLine, printed_by, stop_line, takes_input};
ghost use Rattle.hb_cli.specs.Serving.{WorldUse, world_used};
ghost use Rattle.hb_cli.specs.Use.{used};
ghost use Rattle.hb_cli.specs.declared.stop.Stop.TheVariants.{NoMemory};

use crate::answer::{Answer, Printed, end, print};
use crate::input::{Refused, read_input};
use crate::judging::{check_input, route_input};
use crate::making::make_script;
use crate::paging::print_page;
use crate::replaying::replay;
use crate::serving::serve_world;
use crate::stop::Stop;
use crate::telling::tell;
use hb_audit::{Audit, Audits};
use hb_base::{Bytes, Or, ReadStop, Sink, Source, Text, read_all};
use hb_turns::Keep;
use hb_words::{Command, Replay, read_words};
use hb_world::{ScriptWorld, World};
use std::alloc::{AllocError, Global};

/// The most bytes of input.
const LONGEST_INPUT: usize = 67_108_864;

/// The answer of a replay of this input.
fn replay_input<A: Audit>(
    alloc: Global,
    words: &Replay<'_>,
    input: Bytes,
    keep: &mut Keep,
    audits: &mut Audits<A>,
    script: &mut ScriptWorld,
) -> Result<Answer, Or<Refused>>
    requires lines { script.old.lines ≡ [] }
    requires trace { script.old.trace ≡ [] }
    ensures text { Answers (texts result) (printed_by (replays (replay_seen words.now)) (done_by script.new.trace keep.new) input) }
    ensures kind { IfOk result (λ a. Suits (replays (replay_seen words.now)) a) }
    ensures leaves { LeavesOf (replay_seen words.now) input (run_state script.new keep.new) result }
    ensures heard { HearsOf (replays (replay_seen words.now)) (heard_of (answers_by A.notes A.answers) (each audits.old) (each audits.new))
        (done_by script.new.trace keep.new) result }
{
    match replay(alloc, words, input, keep, audits, script) {
        Ok(replayed) => Ok(Answer::Replayed(replayed)),
        Err(Or::Fault(fault)) => Err(Or::Fault(Refused::Line(fault))),
        Err(Or::NoMemory) => Err(Or::NoMemory),
    }
}

/// The answer of a command by this input.
fn answer<A: Audit>(
    alloc: Global,
    command: &Command<'_>,
    input: Bytes,
    keep: &mut Keep,
    audits: &mut Audits<A>,
    script: &mut ScriptWorld,
) -> Result<Answer, Or<Refused>>
    requires by_input { IsTrue (takes_input (Ok (command_of command.now))) }
    requires lines { script.old.lines ≡ [] }
    requires trace { script.old.trace ≡ [] }
    ensures text { Answers (texts result) (printed_by (command_of command.now) (done_by script.new.trace keep.new) input) }
    ensures kind { IfOk result (λ a. Suits (command_of command.now) a) }
    ensures leaves { CommandLeaves (command_of command.now) input (run_state script.old keep.old) (run_state script.new keep.new) result }
    ensures heard { HearsOf (command_of command.now) (heard_of (answers_by A.notes A.answers) (each audits.old) (each audits.new))
        (done_by script.new.trace keep.new) result }
{
    match command {
        Command::Check(check) => check_input(alloc, check, input.as_slice()),
        Command::Route(words) => route_input(alloc, words, input.as_slice()),
        Command::Show(words) => {
            let unnamed = Text::empty(alloc);
            let left = read_input(alloc, unnamed, Text::empty(alloc), true, input.as_slice())?;
            Ok(Answer::Left {
                left,
                fields: words.fields,
            })
        }
        Command::Replay(words) => replay_input(alloc, words, input, keep, audits, script),
        Command::Serve(_) | Command::Make(_) | Command::Print(_) => unreachable!(),
    }
}

/// The answer of a command, after the whole input is read.
fn find_out<S: Source, A: Audit>(
    alloc: Global,
    command: &Command<'_>,
    input: &mut S,
    keep: &mut Keep,
    audits: &mut Audits<A>,
    script: &mut ScriptWorld,
) -> Result<Answer, Stop>
    requires by_input { IsTrue (takes_input (Ok (command_of command.now))) }
    requires lines { script.old.lines ≡ [] }
    requires trace { script.old.trace ≡ [] }
    ensures found { ComesTo (Ok (command_of command.now)) (done_by script.new.trace keep.new)
        (used S.left S.faults input.old input.new) (found_texts result) }
    ensures kind { IfOk result (λ a. Suits (command_of command.now) a) }
    ensures leaves { LeavesBy (command_of command.now) (S.left input.old) (run_state script.old keep.old)
        (run_state script.new keep.new) result }
    ensures heard { HearsBy (command_of command.now) (heard_of (answers_by A.notes A.answers) (each audits.old) (each audits.new))
        (done_by script.new.trace keep.new) result }
    ensures later { S.faults input.old ≤ S.faults input.new }
{
    let bytes = match read_all(alloc, input, LONGEST_INPUT) {
        Ok(bytes) => bytes,
        Err(ReadStop::TooLong) => return Err(Stop::TooLong),
        Err(ReadStop::Failed) => return Err(Stop::ReadFault),
        Err(ReadStop::NoMemory) => return Err(Stop::NoMemory),
    };
    match answer(alloc, command, bytes, keep, audits, script) {
        Ok(answer) => Ok(answer),
        Err(Or::Fault(refused)) => Err(Stop::Refused(refused)),
        Err(Or::NoMemory) => Err(Stop::NoMemory),
    }
}

/// Tells a line that takes memory, or that memory is wanting. Gives the status.
fn tell_made<E: Sink>(err: &mut E, line: Result<String, AllocError>, status: u8) -> u8
    ensures line { MatchResult line
        (λ l. (result ≡ status)
        × WritesLine (E.written err.old) (E.written err.new) (E.faults err.old) (E.faults err.new) (string_bytes l))
        (λ _. (result ≡ 9)
        × WritesLine (E.written err.old) (E.written err.new) (E.faults err.old) (E.faults err.new) (stop_line NoMemory)) }
    ensures later { E.faults err.old ≤ E.faults err.new }
{
    match line {
        Ok(line) => tell(err, line.as_bytes(), status),
        Err(_) => tell(err, b"hbone: out of memory\n", 9),
    }
}

/// Tells why there is no answer. Gives the status.
fn give_up<E: Sink>(alloc: Global, stop: Stop, err: &mut E) -> u8
    ensures line { GivesUp stop (used E.written E.faults err.old err.new) result }
    ensures later { E.faults err.old ≤ E.faults err.new }
{
    match stop {
        Stop::Words(fault) => tell_made(err, fault.line(alloc), 2),
        Stop::TooLong => tell(err, b"hbone: input too long\n", 3),
        Stop::Refused(refused) => tell_made(err, refused.line(alloc), 3),
        Stop::ReadFault => tell(err, b"hbone: read fault\n", 6),
        Stop::NoMemory => tell(err, b"hbone: out of memory\n", 9),
    }
}

/// A command by its input, over any world of sockets. Gives the status.
fn conclude<S: Source, K: Sink, E: Sink, A: Audit>(
    alloc: Global,
    command: &Command<'_>,
    input: &mut S,
    out: &mut K,
    err: &mut E,
    keep: &mut Keep,
    audits: &mut Audits<A>,
    script: &mut ScriptWorld,
) -> u8
    requires by_input { IsTrue (takes_input (Ok (command_of command.now))) }
    requires lines { script.old.lines ≡ [] }
    requires trace { script.old.trace ≡ [] }
    ensures ends { (w : WorldUse (answers_by A.notes A.answers))
        → w.heard ≡ heard_of (answers_by A.notes A.answers) (each audits.old) (each audits.new) → EndsWith (record {
          asked = Ok (command_of command.now);
          input = used S.left S.faults input.old input.new;
          out = used K.written K.faults out.old out.new;
          err = used E.written E.faults err.old err.new;
          world = w;
          before = run_state script.old keep.old;
          left = run_state script.new keep.new;
        }) result }
    ensures by_input { IsTrue (takes_input (Ok (command_of command.now))) }
{
    let answer = match find_out(alloc, command, input, keep, audits, script) {
        Ok(answer) => answer,
        Err(stop) => return give_up(alloc, stop, err),
    };
    match print(alloc, &answer, out) {
        Printed::Whole => end(&answer, err),
        Printed::Failed => tell(err, b"hbone: write fault\n", 7),
        Printed::NoMemory => tell(err, b"hbone: out of memory\n", 9),
    }
}

/// A run. The words are looked at first; then `serve` runs over the world, `make` makes a script, a page is printed, and any other
/// command is answered by its input.
fn obey<S: Source, K: Sink, E: Sink, A: Audit, W: World>(
    alloc: Global,
    words: &[String],
    input: &mut S,
    out: &mut K,
    err: &mut E,
    keep: &mut Keep,
    audits: &mut Audits<A>,
    world: &mut W,
    script: &mut ScriptWorld,
) -> u8
    requires lines { script.old.lines ≡ [] }
    requires trace { script.old.trace ≡ [] }
    ensures ends { EndsWith (record {
      asked = words_of (map string_bytes words.now);
      input = used S.left S.faults input.old input.new;
      out = used K.written K.faults out.old out.new;
      err = used E.written E.faults err.old err.new;
      world = world_used W.trace W.seen world.old world.new (heard_of (answers_by A.notes A.answers) (each audits.old) (each audits.new));
      before = run_state script.old keep.old;
      left = run_state script.new keep.new;
    }) result }
    ensures others { Others (words_of (map string_bytes words.now)) W.seen input.old input.new world.old world.new }
{
    match read_words(alloc, words) {
        Ok(Command::Serve(asked)) => serve_world(alloc, &asked, out, err, audits, world),
        Ok(Command::Make(asked)) => make_script(alloc, &asked, out, err, keep, audits, script),
        Ok(Command::Print(page)) => print_page(alloc, page, out, err),
        Ok(command) => conclude(alloc, &command, input, out, err, keep, audits, script),
        Err(Or::Fault(fault)) => give_up(alloc, Stop::Words(fault), err),
        Err(Or::NoMemory) => give_up(alloc, Stop::NoMemory, err),
    }
}

/// Runs a command: `words` are those behind the program's name. The answer goes to `out`, and why there is
/// none to `err`; a fault of `err` changes no status. The statuses: 0 done, 2 words that aren't accepted,
/// 3 an input that is refused, 4 a run of the proxy whose world failed, 5 one whose turns were spent, 6 a read that
/// failed, 7 a write that failed, 9 want of memory. The words are looked at first, then the whole input is read, and then
/// it is looked at; `serve`, `make` and a page read none. `world` is the one that `serve` runs over, and `script` that of `replay` and of
/// `make --run`; nothing happened in it before. `keep` has the notes of a run over it; where it keeps none, such a run ends with 9.
/// The notes of `serve` aren't kept. Each note of a run is told to the audits when it is made; one that doesn't keep it is dropped,
/// and the run goes on.
pub fn run<S: Source, K: Sink, E: Sink, A: Audit, W: World>(
    alloc: Global,
    words: &[String],
    input: &mut S,
    out: &mut K,
    err: &mut E,
    keep: &mut Keep,
    audits: &mut Audits<A>,
    world: &mut W,
    script: &mut ScriptWorld,
) -> u8
    requires no_lines { script.old.lines ≡ [] }
    requires no_trace { script.old.trace ≡ [] }
    // What each status says, that there is no other, and what stays of what was looked at.
    ensures ends { EndsWith (record {
      asked = words_of (map string_bytes words.now);
      input = used S.left S.faults input.old input.new;
      out = used K.written K.faults out.old out.new;
      err = used E.written E.faults err.old err.new;
      world = world_used W.trace W.seen world.old world.new (heard_of (answers_by A.notes A.answers) (each audits.old) (each audits.new));
      before = run_state script.old keep.old;
      left = run_state script.new keep.new;
    }) result }
    // The script's lines allow the trace that its world has then.
    ensures allowed { Allowed script.new.lines script.new.trace }
    // `serve`, `make` and a page leave the input as it was, and all but `serve` the world of sockets.
    ensures others { Others (words_of (map string_bytes words.now)) W.seen input.old input.new world.old world.new }
{
    let status = obey(alloc, words, input, out, err, keep, audits, world, script);
    script.is_allowed();
    status
}
