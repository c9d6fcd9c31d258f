//! Why words aren't accepted that clap refuses, found word by word.

ghost use Rattle.std.specs.Prelude.{◌≡◌, ◌≤◌, IfOk, Ok, map};
ghost use Rattle.std.specs.List.{list_all, list_any};
ghost use Rattle.std.specs.String.{string_bytes};
ghost use Rattle.hb_base.specs.Outcome.{Answers};
ghost use Rattle.hb_words.specs.Why.{is_shown, shown, option_name, names, behind_option, option_step, place_step, step, walk};
ghost use Rattle.hb_words.specs.Why.{missing_option, why_of};
ghost use Rattle.hb_words.specs.Word.{is_dashed, is_value};

use crate::fault::Why;
use crate::part::{CommandName, PartName};
use hb_base::{NoMemory, Or, Text};
use std::alloc::Global;

fn is_shown(word: &str) -> bool
    ensures { result ≡ list_all is_shown word.now }
{
    for b in word.as_bytes() {
        if *b < 32 || *b == 127 {
            return false;
        }
    }
    true
}

/// A word as a line may show it.
pub(crate) fn shown(alloc: Global, word: &String) -> Result<Text, NoMemory>
    ensures { IfOk result (λ t. t ≡ shown (string_bytes word.now)) }
{
    if is_shown(word.as_str()) {
        Text::of_str(alloc, word.as_str())
    } else {
        Text::of_str(alloc, "(a control character)")
    }
}

fn is_dashed(word: &String) -> bool
    ensures { result ≡ is_dashed (string_bytes word.now) }
{
    word.as_bytes().starts_with(b"-")
}

fn is_value(word: &str) -> bool
    ensures { result ≡ is_value word.now }
{
    !word.is_empty() && !word.as_bytes().starts_with(b"-")
}

/// What stands before the first equals sign.
fn option_name(word: &str) -> &str
    ensures { result.now ≡ option_name word.now }
{
    match word.split_once('=') {
        Some((name, _)) => name,
        None => word,
    }
}

/// Whether one of the words has this name before its equals sign.
fn is_named(name: &str, words: &[String]) -> bool
    ensures { result ≡ list_any (names name.now) (map string_bytes words.now) }
{
    for word in words {
        if option_name(word.as_str()) == name {
            return true;
        }
    }
    false
}

/// How far the words are looked at: so many places are filled, and the next word is a value or isn't.
#[derive(Clone, Copy)]
struct Stand {
    filled: usize,
    skips: bool,
}

/// Behind an option that has no equals sign: whether its value is there.
fn behind_option(part: PartName, filled: usize, words: &[String]) -> Result<Stand, Why>
    ensures { result ≡ behind_option part filled (map string_bytes words.now) }
{
    match words.split_first() {
        None => Err(Why::NoValue(part)),
        Some((value, _)) => {
            if is_value(value.as_str()) {
                Ok(Stand {
                    filled,
                    skips: true,
                })
            } else {
                Err(Why::BadValue(part))
            }
        }
    }
}

/// A word that names an option or a flag of the command.
fn option_step(part: PartName, filled: usize, word: &str, words: &[String]) -> Result<Stand, Why>
    ensures { result ≡ option_step part filled word.now (map string_bytes words.now) }
{
    if is_named(option_name(word), words) {
        return Err(Why::Twice(part));
    }
    let stays = Stand {
        filled,
        skips: false,
    };
    match word.split_once('=') {
        None => {
            if part.is_flag() {
                Ok(stays)
            } else {
                behind_option(part, filled, words)
            }
        }
        Some((_, value)) => {
            if part.is_flag() {
                Err(Why::Valued(part))
            } else if is_value(value) {
                Ok(stays)
            } else {
                Err(Why::BadValue(part))
            }
        }
    }
}

/// A word in a place.
fn place_step(
    alloc: Global,
    command: CommandName,
    filled: usize,
    word: &String,
) -> Result<Stand, Or<Why>>
    ensures { Answers result (place_step command filled (string_bytes word.now)) }
{
    match command.places().get(filled) {
        None => Err(Or::Fault(Why::Spare(shown(alloc, word)?))),
        Some(part) => {
            if word.as_bytes().is_empty() {
                Err(Or::Fault(Why::BadValue(*part)))
            } else {
                Ok(Stand {
                    filled: filled + 1,
                    skips: false,
                })
            }
        }
    }
}

/// One more word, and those behind it.
#[tactic(auto, unfolding(crate::specs::Why::step))]
fn step(
    alloc: Global,
    command: CommandName,
    filled: usize,
    word: &String,
    words: &[String],
) -> Result<Stand, Or<Why>>
    ensures { Answers result (step command filled (string_bytes word.now) (map string_bytes words.now)) }
{
    if !is_dashed(word) {
        return place_step(alloc, command, filled, word);
    }
    match command.part(option_name(word.as_str())) {
        None => Err(Or::Fault(Why::Unknown(shown(alloc, word)?))),
        Some(part) => match option_step(part, filled, word.as_str(), words) {
            Ok(stand) => Ok(stand),
            Err(why) => Err(Or::Fault(why)),
        },
    }
}

/// All words; then how many places are filled. Each option and flag stands at most once, so few words are looked at.
#[tactic(auto, unfolding(crate::specs::Why::walk))]
fn walk(
    alloc: Global,
    command: CommandName,
    stand: Stand,
    words: &[String],
) -> Result<usize, Or<Why>>
    ensures { Answers result (walk command stand (map string_bytes words.now)) }
{
    let Some((word, rest)) = words.split_first() else {
        return Ok(stand.filled);
    };
    let next = if stand.skips {
        Stand {
            filled: stand.filled,
            skips: false,
        }
    } else {
        step(alloc, command, stand.filled, word, rest)?
    };
    walk(alloc, command, next, rest)
}

/// The first option that is wanted and isn't there.
fn missing_option(command: CommandName, words: &[String]) -> Option<PartName>
    ensures { result ≡ missing_option command (map string_bytes words.now) }
{
    match command {
        CommandName::Show | CommandName::Make => return None,
        _ => {}
    }
    if !is_named("--node", words) {
        return Some(PartName::Node);
    }
    if matches!(command, CommandName::Check | CommandName::Route) {
        return None;
    }
    if !is_named("--id", words) {
        return Some(PartName::Id);
    }
    if !is_named("--discovery", words) {
        return Some(PartName::Discovery);
    }
    None
}

/// What is told of words behind a command that aren't accepted: the first reason, word by word, and then what isn't there.
///
/// Errors: want of memory.
pub(crate) fn why_of(alloc: Global, command: CommandName, words: &[String]) -> Result<Why, NoMemory>
    ensures { IfOk result (λ why. why ≡ why_of command (map string_bytes words.now)) }
{
    let start = Stand {
        filled: 0,
        skips: false,
    };
    let filled = match walk(alloc, command, start, words) {
        Ok(filled) => filled,
        Err(Or::Fault(why)) => return Ok(why),
        Err(Or::NoMemory) => return Err(NoMemory),
    };
    if let Some(part) = missing_option(command, words) {
        return Ok(Why::Missing(part));
    }
    match command.places().get(filled) {
        Some(part) => Ok(Why::Missing(*part)),
        None => Ok(Why::NotAccepted),
    }
}
