//! Laws of the audits, and small lists of them, right and wrong. Each is the contract of a function that does nothing.

ghost use Rattle.hb_audit.specs.HeldBy.{answers_by};
ghost use Rattle.hb_audit.specs.Laws.{LeftHoldAll, AllStay};
ghost use Rattle.hb_audit.specs.Refused.{SomeStandIn, SwappedStand, TwiceStands, NewStands, OneFails, AllFail, LacksFirst, LacksLast};
ghost use Rattle.hb_audit.specs.Refused.{HoldsTwice, HoldsInAnotherOrder, HoldsOneMore, LosesOld, ChangePlaces, OneMoreIsLeft};
ghost use Rattle.hb_audit.specs.Refused.{DropsOneThatKeeps, LeavesOneThatFails};
ghost use Rattle.hb_audit.specs.Refused.{KeepsBoth, StaysFailed, ForgetsCalls, FailsWithRoom};

use crate::audit::Audit;

/// Each audit that is left was one before, in the same order, and holds what it held, followed by all notes that were told; and where no
/// audit may give another answer than that it keeps the note, all are left.
pub fn audits_that_are_left_hold_all_notes<A: Audit>()
    ensures hold { LeftHoldAll A.notes A.answers }
    ensures stay { AllStay A.notes A.answers }
{}

/// Items stand in a list that has others between them, and not in one of another order, nor more often than there.
pub fn items_stand_in_their_order()
    ensures some { SomeStandIn }
    ensures swapped { SwappedStand }
    ensures twice { TwiceStands }
    ensures new { NewStands }
{}

/// Two notes are told to three audits of which one fails, and to two that fail both; and what no audits are that were told.
pub fn notes_are_told_to_all_that_are_left()
    ensures one { OneFails }
    ensures all { AllFail }
    ensures first { LacksFirst }
    ensures last { LacksLast }
    ensures twice { HoldsTwice }
    ensures order { HoldsInAnotherOrder }
    ensures more { HoldsOneMore }
    ensures old { LosesOld }
    ensures places { ChangePlaces }
    ensures new { OneMoreIsLeft }
{}

/// An audit that keeps a note isn't dropped, and one that fails isn't left.
pub fn audits_are_left_by_their_own_answers<A: Audit>()
    ensures keeps { DropsOneThatKeeps (answers_by A.notes A.answers) }
    ensures fails { LeavesOneThatFails (answers_by A.notes A.answers) }
{}

/// Of an audit in memory its answers and what it is then are known, but for want of memory.
pub fn audits_in_memory_answer_as_they_stand()
    ensures keeps { KeepsBoth }
    ensures stays { StaysFailed }
    ensures calls { ForgetsCalls }
    ensures room { FailsWithRoom }
{}
