//! Of hb_words.

ghost use Rattle.std.specs.Prelude.{IfOk, map};
ghost use Rattle.std.specs.String.{string_bytes};
ghost use Rattle.hb_base.specs.Outcome.{Answers};
ghost use Rattle.hb_words.specs.Asked.{command_of, commanded};
ghost use Rattle.hb_words.specs.Make.{IsInRange};
ghost use Rattle.hb_words.specs.Words.{words_of};

use hb_base::Or;
use hb_words::{Command, WordsFault};
use std::alloc::Global;

/// `read_words`, with its Errors.
pub fn read_words(alloc: Global, words: &[String]) -> Result<Command<'_>, Or<WordsFault>>
    ensures told { Answers (commanded result) (words_of (map string_bytes words.now)) }
    ensures range { IfOk result (λ c. IsInRange (command_of c)) }
{
    hb_words::read_words(alloc, words)
}
