//! What audits hold behind a run, right and wrong, and what is left where its turns are spent. Each is the contract of a function that does
//! nothing.

ghost use Rattle.hb_serve.specs.Refused.{AllRunsHoldAll, NoRunHoldsOthers, NoRunLeavesOneMore, NoRunDropsKeepers};
ghost use Rattle.hb_serve.specs.Refused.{RestsUnheard, RestsUnapplied, RestsUnlooked, RestsUnclosed};

/// Behind a run in which memory didn't lack audits may hold all its notes; none is left that holds others, or that wasn't there, and none is
/// gone that kept each.
pub fn audits_hold_the_notes_of_the_run()
    ensures all { AllRunsHoldAll }
    ensures others { NoRunHoldsOthers }
    ensures more { NoRunLeavesOneMore }
    ensures gone { NoRunDropsKeepers }
{}

/// No run spends its turns while something that came isn't looked at, a response isn't applied, or the upstream of a tunnel that ended isn't
/// closed.
pub fn machines_with_work_left_are_not_at_rest()
    ensures unheard { RestsUnheard }
    ensures unapplied { RestsUnapplied }
    ensures unlooked { RestsUnlooked }
    ensures unclosed { RestsUnclosed }
{}
