//! What a command prints.

ghost use Rattle.std.specs.Prelude.{◌≡◌, ◌≢◌, ◌≤◌, IfOk};
ghost use Rattle.std.specs.List.{flat_map};
ghost use Rattle.hb_held.specs.Rows.{row_as, rows};
ghost use Rattle.hb_cli.specs.Answer.{answer_text, IsMade};
ghost use Rattle.hb_cli.specs.Leaving.{EndsRun, end_of};
ghost use Rattle.hb_cli.specs.Printing.{PrintsAt};
ghost use Rattle.hb_cli.specs.Judge.{answer_line};
ghost use Rattle.hb_cli.specs.Run.{held_line, shown};
ghost use Rattle.hb_cli.specs.Use.{Prints, used};
ghost use Rattle.hb_cli.specs.declared.answer.Printed.TheVariants as printing;

use crate::ended::ReplayEnd;
use crate::input::Left;
use crate::replaying::Replayed;
use crate::telling::tell;
use hb_base::{NoMemory, Sink, put_all};
use hb_held::{Held, HeldRow};
use hb_lines::{fields_line, row_line};
use hb_table::Judged;
use std::alloc::Global;

/// The answer of a command.
#[derive(Drop)]
pub enum Answer {
    /// Of `check`.
    Judged(Judged),
    /// The whole text: of `check --explain`, or of `route`.
    Told(Vec<u8>),
    /// Of `show`, with the fields of each record or without.
    Left { left: Left, fields: bool },
    Replayed(Replayed),
}

/// How far an answer is printed: whole; up to a put that failed; or as far as memory went.
#[derive(Clone, Copy)]
pub enum Printed {
    Whole,
    Failed,
    NoMemory,
}

/// What `check` prints of an answer.
pub fn line_of(judged: Judged) -> &'static [u8]
    ensures { result.now ≡ answer_line judged }
{
    match judged {
        Judged::Admitted => b"allow\n",
        Judged::Denied => b"deny\n",
        Judged::Unknown => b"unknown\n",
    }
}

/// Prints a text that is there whole.
pub fn print_text<K: Sink>(out: &mut K, text: &[u8]) -> Printed
    ensures printed { Prints (used K.written K.faults out.old out.new) text.now result }
    ensures later { K.faults out.old ≤ K.faults out.new }
    ensures made { result ≢ printing.NoMemory }
{
    match put_all(out, text) {
        Ok(()) => Printed::Whole,
        Err(_) => Printed::Failed,
    }
}

/// Prints a text that is there whole. Gives the status.
pub fn print_whole<K: Sink, E: Sink>(text: &[u8], out: &mut K, err: &mut E) -> u8
    ensures prints { PrintsAt text.now (used K.written K.faults out.old out.new) (used E.written E.faults err.old err.new) result }
    ensures later_out { K.faults out.old ≤ K.faults out.new }
    ensures later_err { E.faults err.old ≤ E.faults err.new }
{
    match print_text(out, text) {
        Printed::Whole => 0,
        _ => tell(err, b"hbone: write fault\n", 7),
    }
}

/// The line of a resource held, with the fields of its record or without.
fn held_line(alloc: Global, fields: bool, row: &HeldRow<'_>) -> Result<Vec<u8>, NoMemory>
    ensures { IfOk result (λ line. line.items ≡ held_line fields (row_as row.now)) }
{
    if fields {
        fields_line(alloc, row)
    } else {
        row_line(alloc, row)
    }
}

/// Prints a line of each resource held, by kind and name.
fn print_rows<K: Sink>(alloc: Global, held: &Held, fields: bool, out: &mut K) -> Printed
    ensures printed { Prints (used K.written K.faults out.old out.new) (flat_map (held_line fields) (rows held.now)) result }
    ensures later { K.faults out.old ≤ K.faults out.new }
{
    let mut rows = held.rows();
    while let Some(row) = rows.next() {
        let Ok(line) = held_line(alloc, fields, &row) else {
            return Printed::NoMemory;
        };
        match print_text(out, line.as_slice()) {
            Printed::Whole => {}
            other => return other,
        }
    }
    Printed::Whole
}

/// Prints the lines of the responses, and then those of the resources held.
fn print_left<K: Sink>(alloc: Global, left: &Left, fields: bool, out: &mut K) -> Printed
    ensures printed { Prints (used K.written K.faults out.old out.new) (shown fields left.now) result }
    ensures later { K.faults out.old ≤ K.faults out.new }
{
    match print_text(out, left.told.as_slice()) {
        Printed::Whole => print_rows(alloc, &left.held, fields, out),
        other => other,
    }
}

/// Prints an answer.
pub fn print<K: Sink>(alloc: Global, answer: &Answer, out: &mut K) -> Printed
    ensures printed { Prints (used K.written K.faults out.old out.new) (answer_text answer.now) result }
    ensures later { K.faults out.old ≤ K.faults out.new }
    ensures made { IsMade answer.now → result ≢ printing.NoMemory }
{
    match answer {
        Answer::Judged(judged) => print_text(out, line_of(*judged)),
        Answer::Told(text) => print_text(out, text.as_slice()),
        Answer::Left { left, fields } => print_left(alloc, left, *fields, out),
        Answer::Replayed(replayed) => print_text(out, replayed.report.as_slice()),
    }
}

/// Tells how a run of the proxy ended, where no stop ended it. Gives the status.
pub fn end_run<E: Sink>(end: ReplayEnd, err: &mut E) -> u8
    ensures ends { EndsRun end (used E.written E.faults err.old err.new) result }
    ensures later { E.faults err.old ≤ E.faults err.new }
{
    match end {
        ReplayEnd::Stopped => 0,
        ReplayEnd::WorldFault => tell(err, b"hbone: world fault\n", 4),
        ReplayEnd::TurnsSpent => tell(err, b"hbone: turns spent\n", 5),
    }
}

/// Tells how a replay ended, where no stop ended it. Gives the status behind an answer that is printed whole.
pub fn end<E: Sink>(answer: &Answer, err: &mut E) -> u8
    ensures ends { EndsRun (end_of answer.now) (used E.written E.faults err.old err.new) result }
    ensures later { E.faults err.old ≤ E.faults err.new }
{
    match answer {
        Answer::Judged(_) | Answer::Told(_) | Answer::Left { .. } => 0,
        Answer::Replayed(replayed) => end_run(replayed.end, err),
    }
}
