//! Laws about the definitions that the contracts cite. Each is the contract of a function that does nothing.

ghost use Rattle.hb_blocks.specs.Laws.{AllIsHeld, CutsChangeNothing, LongFrontsChangeNothing, LengthIsToldAtOnce, OneOutcome};

/// However a block is cut into fragments, what is told and kept is what the whole block in one frame makes.
pub fn cuts_change_nothing()
    ensures held { AllIsHeld }
    ensures answer { CutsChangeNothing }
    ensures long { LongFrontsChangeNothing }
{}

/// That a block is too long is told at the very fragment with which it passes 32,768 octets.
pub fn length_is_told_at_once()
    ensures { LengthIsToldAtOnce }
{}

/// Want of memory aside, a fragment has one answer. Where that is no fault, it leaves one state.
pub fn a_fragment_has_one_outcome()
    ensures { OneOutcome }
{}
