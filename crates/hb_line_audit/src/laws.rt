//! Laws, and small examples of lines that an audit takes, right and wrong. Each is the contract of a function that does nothing.

ghost use Rattle.hb_line_audit.specs.Notes.{HandsLines};
ghost use Rattle.hb_line_audit.specs.Refused.{LinesAreWhole, LineIsLost, LineIsMissing, LinesChangePlaces, LineIsCut, LostIsHidden};
ghost use Rattle.hb_line_audit.specs.Refused.{Waits, IsWritten, IsHalfWritten, TellsLost};
ghost use Rattle.hb_line_audit.specs.Refused.{Vanishes, LosesItsRest, IsTwice, IsLostWithRoom, HidesLost, FailsAlone};
ghost use Rattle.hb_line_audit.specs.Refused.{BothLines, FirstLine, NoLine, ShortGoesWhole};

use crate::polled::Polled;

/// An audit to which notes are told, and that is left, was handed their lines, and those of their reasons.
pub fn notes_told_are_lines_handed_on<K: Polled>()
    ensures { HandsLines K.written }
{}

/// The text of two lines has both, or tells that one was lost. It lacks none that isn't counted, has them in their order, cuts none, and
/// hides none that was lost.
pub fn texts_of_lines_are_told_apart()
    ensures whole { LinesAreWhole }
    ensures lost { LineIsLost }
    ensures missing { LineIsMissing }
    ensures places { LinesChangePlaces }
    ensures cut { LineIsCut }
    ensures hidden { LostIsHidden }
{}

/// A line that is kept waits, is written, or both in parts; and lines that were lost are told in front of it.
pub fn lines_are_handed_on()
    ensures waits { Waits }
    ensures written { IsWritten }
    ensures half { IsHalfWritten }
    ensures lost { TellsLost }
{}

/// No line that is kept vanishes, loses a part, stands twice, or is lost where there is room; and none that was lost is hidden.
pub fn lines_that_go_astray_are_refused()
    ensures vanishes { Vanishes }
    ensures rest { LosesItsRest }
    ensures twice { IsTwice }
    ensures room { IsLostWithRoom }
    ensures hides { HidesLost }
    ensures fails { FailsAlone }
{}

/// Whole lines end with the last newline, and what is short goes whole.
pub fn puts_are_of_whole_lines()
    ensures both { BothLines }
    ensures first { FirstLine }
    ensures none { NoLine }
    ensures short { ShortGoesWhole }
{}
