//! Of hb_cli.

ghost use Rattle.std.specs.Prelude.{◌≡◌, [], map};
ghost use Rattle.std.specs.String.{string_bytes};
ghost use Rattle.hb_audit.specs.HeldBy.{each, answers_by};
ghost use Rattle.hb_cli.specs.Ending.{EndsWith, Others};
ghost use Rattle.hb_cli.specs.Replaying.{run_state};
ghost use Rattle.hb_cli.specs.Serving.{world_used};
ghost use Rattle.hb_cli.specs.Use.{used};
ghost use Rattle.hb_serve.specs.Served.{heard_of};
ghost use Rattle.hb_words.specs.Words.{words_of};
ghost use Rattle.hb_world.specs.Allowed.{Allowed};

use hb_audit::{Audit, Audits};
use hb_base::{Sink, Source};
use hb_turns::Keep;
use hb_world::{ScriptWorld, World};
use std::alloc::Global;

/// `run`.
pub fn run<S: Source, K: Sink, E: Sink, A: Audit, W: World>(
    alloc: Global,
    words: &[String],
    input: &mut S,
    out: &mut K,
    err: &mut E,
    keep: &mut Keep,
    audits: &mut Audits<A>,
    world: &mut W,
    script: &mut ScriptWorld,
) -> u8
    requires no_lines { script.old.lines ≡ [] }
    requires no_trace { script.old.trace ≡ [] }
    ensures ends { EndsWith (record {
      asked = words_of (map string_bytes words.now);
      input = used S.left S.faults input.old input.new;
      out = used K.written K.faults out.old out.new;
      err = used E.written E.faults err.old err.new;
      world = world_used W.trace W.seen world.old world.new (heard_of (answers_by A.notes A.answers) (each audits.old) (each audits.new));
      before = run_state script.old keep.old;
      left = run_state script.new keep.new;
    }) result }
    ensures allowed { Allowed script.new.lines script.new.trace }
    ensures others { Others (words_of (map string_bytes words.now)) W.seen input.old input.new world.old world.new }
{
    hb_cli::run(alloc, words, input, out, err, keep, audits, world, script)
}
