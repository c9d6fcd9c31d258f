//! A script's text.

ghost use Rattle.std.specs.Prelude.{◌≡◌, ◌==◌, position};
ghost use Rattle.std.specs.List.{before_first, after_first};
ghost use Rattle.hb_base.specs.Outcome.{Answers, Merges};
ghost use Rattle.hb_script.specs.Script.{joined, row_lines, lines};

use crate::fault::ScriptFault;
use crate::form::read_line;
use hb_base::{List, Or};
use hb_world::Line;
use std::alloc::Global;

/// Where the first newline stands.
fn newline_at(text: &[u8]) -> Option<usize>
    ensures { result ≡ position (λ b. b == 10) text.now }
{
    text.iter().position(|b| *b == b'\n')
}

/// The first row, and what is behind its newline.
fn first_row(text: &[u8]) -> (&[u8], &[u8])
    ensures row { result.0.now ≡ before_first (λ b. b == 10) text.now }
    ensures behind { result.1.now ≡ after_first (λ b. b == 10) text.now }
{
    match newline_at(text) {
        Some(at) => (&text[..at], &text[at + 1..]),
        None => (text, &[]),
    }
}

/// Adds the line of row `number`, if it has one.
fn take_row(
    alloc: Global,
    lines: &mut List<Line>,
    number: u64,
    row: &[u8],
) -> Result<(), Or<ScriptFault>>
    ensures { Merges (joined (Ok lines.old) (row_lines number row.now)) lines.new result }
{
    if row.is_empty() {
        return Ok(());
    }
    match read_line(alloc, row) {
        Ok(line) => {
            lines.push(line)?;
            Ok(())
        }
        Err(Or::Fault(why)) => Err(Or::Fault(ScriptFault { line: number, why })),
        Err(Or::NoMemory) => Err(Or::NoMemory),
    }
}

/// Reads a script: rows of UTF-8 text, each ended by a newline, which the last may lack. An empty row is no line, but
/// is counted; each other row is a JSON object (RFC 8259) of one of the forms.
///
/// Errors: the number and the reason of the first row that is none; and `NoMemory`.
pub fn read_script(alloc: Global, b: &[u8]) -> Result<List<Line>, Or<ScriptFault>>
    ensures { Answers result (lines b.now) }
{
    let mut lines = List::new(alloc);
    let mut left = b;
    let mut number = 1u64;
    while !left.is_empty() {
        let (row, behind) = first_row(left);
        take_row(alloc, &mut lines, number, row)?;
        left = behind;
        number += 1;
    }
    Ok(lines)
}
