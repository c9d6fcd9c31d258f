//! Laws of the words that `clap` takes, which no code calls: each is proved, and its body is empty.

ghost use Rattle.hb_options.specs.Items.{Refused};
ghost use Rattle.hb_options.specs.Refused.{
  commands,
  MixedAreAccepted,
  NothingIsAccepted,
  no_words,
  no_command,
  node_twice,
  brief_twice,
  flag_valued,
  node_unvalued,
  node_swallows,
  no_node,
  no_target,
  three_places,
  unknown_option,
  others_option,
  place_named,
  empty_value,
  dashed_value,
  two_dashes,
  one_dash,
  empty_word,
};
ghost use Rattle.hb_options.specs.Taken.{AreSimple, TakesSpelledItems, AreSpelledCleanly, TakesSpelledItemsAlone, SpellsTakenWords, GivesItemsValues};

/// A program of commands takes the words that a command's name and items spell which that command accepts, and of clean words no
/// others; then each part has the value of its item.
pub fn words_are_taken_as_items_spell_them()
    ensures simple { AreSimple }
    ensures taken { TakesSpelledItems }
    ensures clean { AreSpelledCleanly }
    ensures alone { TakesSpelledItemsAlone }
    ensures spelled { SpellsTakenWords }
    ensures values { GivesItemsValues }
{}

/// A command accepts items in any order, and nothing where it wants nothing.
pub fn good_words_are_accepted()
    ensures mixed { MixedAreAccepted }
    ensures nothing { NothingIsAccepted }
{}

/// No command accepts items that spell no words or name no command, an option or a flag twice, a flag with a value, or an option
/// without one.
pub fn uses_are_refused()
    ensures no_words { Refused commands no_words }
    ensures no_command { Refused commands no_command }
    ensures node_twice { Refused commands node_twice }
    ensures brief_twice { Refused commands brief_twice }
    ensures flag_valued { Refused commands flag_valued }
    ensures node_unvalued { Refused commands node_unvalued }
    ensures node_swallows { Refused commands node_swallows }
{}

/// Nor items of which a wanted one isn't there, more than there are places, or an option that is none of the command's.
pub fn lists_are_refused()
    ensures no_node { Refused commands no_node }
    ensures no_target { Refused commands no_target }
    ensures three_places { Refused commands three_places }
    ensures unknown_option { Refused commands unknown_option }
    ensures others_option { Refused commands others_option }
    ensures place_named { Refused commands place_named }
{}

/// Nor items spelled by words that clap by itself would take: an empty value, one that begins with a dash, `--`, a dash alone, or an
/// empty word.
pub fn unclean_words_are_refused()
    ensures empty_value { Refused commands empty_value }
    ensures dashed_value { Refused commands dashed_value }
    ensures two_dashes { Refused commands two_dashes }
    ensures one_dash { Refused commands one_dash }
    ensures empty_word { Refused commands empty_word }
{}
