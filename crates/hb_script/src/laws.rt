//! Laws of a script's text, which no code calls: each is proved, and its body is empty.

ghost use Rattle.hb_script.specs.Spelling.{ReadsWrittenLines, GivesReadableLines};

/// The text of lines that a script can give, each with a newline behind it, is read as these lines.
pub fn lines_are_read_as_they_are_written()
    ensures { ReadsWrittenLines }
{}

/// A line that a row of a script gives has its numbers in range and a piece that isn't empty.
pub fn lines_that_are_read_can_be_written()
    ensures { GivesReadableLines }
{}
