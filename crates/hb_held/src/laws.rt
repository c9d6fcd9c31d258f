//! Laws about the definitions that the contracts cite. Each is the contract of a function that does nothing.

ghost use Rattle.hb_index.specs.Kept.{note};
ghost use Rattle.hb_held.specs.Laws.{LeastIsFound, NamesStandOnce, UntouchedStays, NotesGiveBack, UntouchedByResponse};
ghost use Rattle.hb_held.specs.Laws.{GivesBack, latest_note, no_note, ChangedAreTouched, LackingIsWrong};

/// The workload found at an address is held, is of this network and has the address, and no other such workload has a
/// smaller name; none is found only where there is none.
pub fn least_is_found()
    ensures { LeastIsFound }
{}

/// In each kind the names of what is held rise, so a kind and a name stand once among the rows.
pub fn names_stand_once()
    ensures { NamesStandOnce }
{}

/// At an address that the last response didn't touch the same workload is known as before it, and the same policies are
/// for it: a judgement of it stays.
pub fn untouched_stays()
    ensures { UntouchedStays }
{}

/// What is held after a response, with the notes of what it changed put back, is what was held before it.
pub fn notes_give_back()
    ensures { NotesGiveBack }
{}

/// At an address that a response doesn't touch the same workload is known after it as before it, and the same policies
/// are for it.
pub fn untouched_by_response()
    ensures { UntouchedByResponse }
{}

/// The first note of a name gives back what stood there; a note that is written over doesn't, nor does none.
pub fn first_notes_give_back()
    ensures first { GivesBack note }
    ensures latest { GivesBack latest_note → ⊥ }
    ensures none { GivesBack no_note → ⊥ }
{}

/// Where the last response changed no policy, each address that it touched is among those of the workloads that stand or stood under the
/// names that it changed; numbers of which that of a touched address is lacking aren't all that were touched.
pub fn changed_are_touched()
    ensures all { ChangedAreTouched }
    ensures lacking { LackingIsWrong }
{}
