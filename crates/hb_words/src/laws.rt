//! Laws of the words, which no code calls: each is proved, and its body is empty.

ghost use Rattle.hb_words.specs.Page.{EachPartHasItsLine};
ghost use Rattle.hb_words.specs.Words.{ReadsSpelledItems, ReadsPages, AcceptsThese, OthersAskForNone};

/// Words are accepted exactly where they ask for a page, or name a command and spell items of it, in any order, each at most once and
/// the wanted ones there, whose values are of their grammars and ranges; and then ask what these values ask.
pub fn words_are_read_as_they_are_spelled()
    ensures spelled { ReadsSpelledItems }
    ensures pages { ReadsPages }
    ensures alone { AcceptsThese }
{}

/// `-h`, `help` and `--` ask for no page, nor does `--help` beside more words than the name of a command before it.
pub fn other_words_ask_for_no_page()
    ensures { OthersAskForNone }
{}

/// The page of a command has a line for each part that the command declares, and no other.
pub fn each_part_has_its_line()
    ensures { EachPartHasItsLine }
{}
