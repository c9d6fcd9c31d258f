//! The words of the command line.

ghost use Rattle.std.specs.Prelude.{◌≡◌, IfOk, Some, map};
ghost use Rattle.std.specs.String.{string_bytes};
ghost use Rattle.hb_base.specs.Outcome.{Answers};
ghost use Rattle.hb_words.specs.Asked.{command_of, commanded};
ghost use Rattle.hb_words.specs.Make.{IsInRange};
ghost use Rattle.hb_words.specs.Words.{behind, command_first, words_of};

use crate::asks::Command;
use crate::fault::WordsFault;
use crate::grammar::matches;
use crate::page::page_of;
use crate::part::{CommandName, command_named};
use crate::values::asked_by;
use crate::why::{shown, why_of};
use hb_base::Or;
use std::alloc::Global;

/// What the command asks that has these words, of which `rest` stands behind its name.
fn read_behind<'a>(
    alloc: Global,
    command: CommandName,
    words: &'a [String],
    rest: &[String],
) -> Result<Command<'a>, Or<WordsFault>>
    requires named { command_first (map string_bytes words.now) ≡ Some command }
    ensures told { Answers (commanded result) (behind command (map string_bytes words.entry.now) (map string_bytes rest.now)) }
    ensures range { IfOk result (λ c. IsInRange (command_of c)) }
{
    let Some(matches) = matches(alloc, words)? else {
        let why = why_of(alloc, command, rest)?;
        return Err(Or::Fault(WordsFault::Behind(command, why)));
    };
    let Some((_, values)) = matches.subcommand() else {
        unreachable!()
    };
    match asked_by(alloc, command, values) {
        Ok(asked) => Ok(asked),
        Err(Or::Fault(why)) => Err(Or::Fault(WordsFault::Behind(command, why))),
        Err(Or::NoMemory) => Err(Or::NoMemory),
    }
}

/// What the words ask for.
///
/// Errors: of words that aren't accepted the first fault, word by word, and then what isn't there; of others the first value that isn't
/// of its grammar and range; and `NoMemory`.
#[tactic(auto, unfolding(crate::specs::Words::words_of, crate::specs::Words::command_by))]
pub fn read_words(alloc: Global, words: &[String]) -> Result<Command<'_>, Or<WordsFault>>
    ensures told { Answers (commanded result) (words_of (map string_bytes words.now)) }
    ensures range { IfOk result (λ c. IsInRange (command_of c)) }
{
    if let Some(page) = page_of(words) {
        return Ok(Command::Print(page));
    }
    let Some((word, rest)) = words.split_first() else {
        return Err(Or::Fault(WordsFault::NoCommand));
    };
    match command_named(word.as_str()) {
        Some(command) => read_behind(alloc, command, words, rest),
        None => {
            let word = shown(alloc, word)?;
            Err(Or::Fault(WordsFault::UnknownCommand(word)))
        }
    }
}
