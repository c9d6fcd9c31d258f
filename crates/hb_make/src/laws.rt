//! Laws of made scripts. Each is the contract of a function that does nothing.

ghost use Rattle.hb_make.specs.Laws.{IsReadBack, HasLines, OneMarkGoesUp, TwoMarksGoUp, LinksFromOne, OtherPort};
ghost use Rattle.hb_make.specs.Laws.{WithoutWake, WithoutUpdate};

/// The text of a made script is read as its lines.
pub fn made_scripts_are_read_back()
    ensures { IsReadBack }
{}

/// A made script has ten lines, and nine for each tunnel.
pub fn made_scripts_have_their_lines()
    ensures { HasLines }
{}

/// The tunnel of the script of one, and what it isn't.
pub fn the_first_tunnel_is_told_apart()
    ensures one { OneMarkGoesUp }
    ensures two { TwoMarksGoUp }
    ensures links { LinksFromOne }
    ensures port { OtherPort }
    ensures wake { WithoutWake }
    ensures update { WithoutUpdate }
{}
