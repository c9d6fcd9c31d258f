//! Ends of a command that aren't what it does, and one that is. Each is the contract of a function that does nothing.

ghost use Rattle.hb_audit.specs.HeldBy.{answers_by};
ghost use Rattle.hb_cli.specs.Explaining.{Explains, told_lines, by_next_rule, all_but_first};
ghost use Rattle.hb_cli.specs.Refused.{NoOtherStatus, DonePrintsNothing, RefusedPrints, UnreadUncounted, NoWordsAreRefused};
ghost use Rattle.hb_cli.specs.Refused.{NeverEndsWith, PrintsNothing, HidesFault, InventsFault, PrintsWanting, MayLack};
ghost use Rattle.hb_cli.specs.Refused.{MakeNeverEndsWith, TextNeverEndsWith, MakesNothing, MakesAnother, RunsUnasked};
ghost use Rattle.hb_cli.specs.Refused.{RunsNothing, RunsUntold, TextMayBePrinted, MakeMayLack};
ghost use Rattle.hb_cli.specs.Refused.{PageNeverEndsWith, PrintsNoPage, PrintsAnotherPage, PageMayBePrinted};
ghost use Rattle.hb_cli.specs.Refused.{EndsLacking, RunsLacking, EndsAsTold};

use hb_audit::Audit;

/// No run ends with 1. One that is done printed what `check` answers; one whose input is refused printed nothing; and where a read failed
/// that is counted. A run without words may end with 2, and print and read nothing.
pub fn ends_of_run_are_told_apart<A: Audit>()
    ensures status { NoOtherStatus (answers_by A.notes A.answers) }
    ensures nothing { DonePrintsNothing (answers_by A.notes A.answers) }
    ensures refused { RefusedPrints (answers_by A.notes A.answers) }
    ensures uncounted { UnreadUncounted (answers_by A.notes A.answers) }
    ensures words { NoWordsAreRefused (answers_by A.notes A.answers) }
{}

/// `serve` reads no input, so it never ends with 3 or 6, nor with 2 once its words were accepted. At a stop its totals were printed; its
/// status tells exactly whether a listen or a wait failed; and where memory lacked nothing was printed. Memory may lack for it.
pub fn ends_of_serve_are_told_apart<A: Audit>()
    ensures words { NeverEndsWith (answers_by A.notes A.answers) 2 }
    ensures input { NeverEndsWith (answers_by A.notes A.answers) 3 }
    ensures unread { NeverEndsWith (answers_by A.notes A.answers) 6 }
    ensures nothing { PrintsNothing (answers_by A.notes A.answers) }
    ensures hidden { HidesFault (answers_by A.notes A.answers) }
    ensures invented { InventsFault (answers_by A.notes A.answers) }
    ensures wanting { PrintsWanting (answers_by A.notes A.answers) }
    ensures lacks { MayLack (answers_by A.notes A.answers) }
{}

/// `make` reads no input, so it never ends with 3 or 6, nor with 2 once its words were accepted; without `--run` not with 4 or 5 either,
/// and then it runs nothing. At status 0 its script's text was printed, or the totals of the run over its lines. Its text may be printed,
/// and memory may lack for it.
pub fn ends_of_make_are_told_apart<A: Audit>()
    ensures words { MakeNeverEndsWith (answers_by A.notes A.answers) 2 }
    ensures input { MakeNeverEndsWith (answers_by A.notes A.answers) 3 }
    ensures unread { MakeNeverEndsWith (answers_by A.notes A.answers) 6 }
    ensures world { TextNeverEndsWith (answers_by A.notes A.answers) 4 }
    ensures turns { TextNeverEndsWith (answers_by A.notes A.answers) 5 }
    ensures nothing { MakesNothing (answers_by A.notes A.answers) }
    ensures another { MakesAnother (answers_by A.notes A.answers) }
    ensures unasked { RunsUnasked (answers_by A.notes A.answers) }
    ensures idle { RunsNothing (answers_by A.notes A.answers) }
    ensures untold { RunsUntold (answers_by A.notes A.answers) }
    ensures printed { TextMayBePrinted (answers_by A.notes A.answers) }
    ensures lacks { MakeMayLack (answers_by A.notes A.answers) }
{}

/// A page is of accepted words, reads no input and runs nothing, so it never ends with 2 to 6. At status 0 it was printed, and no other
/// one. It may be.
pub fn ends_of_pages_are_told_apart<A: Audit>()
    ensures words { PageNeverEndsWith (answers_by A.notes A.answers) 2 }
    ensures input { PageNeverEndsWith (answers_by A.notes A.answers) 3 }
    ensures world { PageNeverEndsWith (answers_by A.notes A.answers) 4 }
    ensures turns { PageNeverEndsWith (answers_by A.notes A.answers) 5 }
    ensures unread { PageNeverEndsWith (answers_by A.notes A.answers) 6 }
    ensures nothing { PrintsNoPage (answers_by A.notes A.answers) }
    ensures another { PrintsAnotherPage (answers_by A.notes A.answers) }
    ensures printed { PageMayBePrinted (answers_by A.notes A.answers) }
{}

/// The lines that `check --explain` prints tell each policy that counts, by the first of its rules that the connection meets, and decide the
/// answer. Lines that tell another rule do not, nor do those that leave a policy out.
pub fn explanations_decide_answers()
    ensures explains { Explains told_lines }
    ensures another { Explains by_next_rule → ⊥ }
    ensures fewer { Explains all_but_first → ⊥ }
{}

/// A run in which a request was answered 500 for want of memory isn't told to have ended by a stop, by its world or by its turns. One in
/// which memory never lacked ended as it is told.
pub fn runs_that_lacked_are_told_apart()
    ensures request { EndsLacking }
    ensures note { RunsLacking }
    ensures ended { EndsAsTold }
{}
