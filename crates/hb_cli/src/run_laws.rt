//! What follows of how a run ends. Each is the contract of a function that does nothing.

ghost use Rattle.std.specs.Prelude.{◌≡◌, ◌≢◌, ◌<◌, ◌≤◌, ◌==◌, ◌⊎◌, ℕ, List, [], false, IsTrue, IsErr, IfSome, length, take, None, Ok, Err};
ghost use Rattle.std.specs.Io.KnownBytes.{Appends};
ghost use Rattle.hb_audit.specs.HeldBy.{answers_by};
ghost use Rattle.hb_base.specs.Count.{Counts, Rose};
ghost use Rattle.hb_cli.specs.Replaying.{DoneLawfully, done_in};
ghost use Rattle.hb_cli.specs.declared.ended.ReplayEnd.{ReplayEnd as ReplayEnds};
ghost use Rattle.hb_cli.specs.declared.ended.ReplayEnd.TheVariants as ends;
ghost use Rattle.hb_turns.specs.Notes.{held};
ghost use Rattle.hb_words.specs.Command.{Replay as Replays, Serve as Serves, shows, replays, serves, makes, prints};
ghost use Rattle.hb_words.specs.declared.asks.Make.{Make as Makes};
ghost use Rattle.hb_words.specs.declared.asks.Show.{Show as Shows};
ghost use Rattle.hb_words.specs.declared.page.Page.{Page as Pages};
ghost use Rattle.hb_cli.specs.Asked.{words_of};
ghost use Rattle.hb_cli.specs.Ending.{EachEnding};
ghost use Rattle.hb_cli.specs.Hearing.{HearsAll};
ghost use Rattle.hb_cli.specs.Keeping.{KeepsHeadline};
ghost use Rattle.hb_cli.specs.Making.{MakesAt};
ghost use Rattle.hb_cli.specs.Leaving.{RunsTo};
ghost use Rattle.hb_cli.specs.Paging.{PagesAt};
ghost use Rattle.hb_cli.specs.Run.{IsOutcomeBy, IsStated, ReadsEnough, WritesLine, outcome_by, status_of};
ghost use Rattle.hb_cli.specs.Run.{is_answered, line_at, stop_line, takes_input};
ghost use Rattle.hb_cli.specs.Serving.{ServesAt, LeavesTrace};
ghost use Rattle.hb_cli.specs.declared.stop.Stop.{Stop};

use hb_audit::Audit;

/// 2 comes exactly where the words aren't accepted, want of memory aside, and nothing is read then.
pub fn words_are_refused_exactly<A: Audit>()
    ensures words_refused { EachEnding (answers_by A.notes A.answers) (λ r status. status ≡ 2 → IsErr r.asked) }
    ensures refused_words { EachEnding (answers_by A.notes A.answers) (λ r status. IsErr r.asked → (status ≡ 2) ⊎ (status ≡ 9)) }
    ensures reads_nothing { EachEnding (answers_by A.notes A.answers) (λ r status. status ≡ 2 → r.input.bytes_after ≡ r.input.bytes) }
{}

/// But for `serve`, `make` and a page a command is answered by its input, which is read to its end, or past its limit, before it is looked
/// at. Of
/// one that is told the status is the stated one: 3 exactly by the input, 0 with its answer; a replay that has an answer may have ended
/// otherwise than by a stop.
pub fn statuses_are_stated_by_words_and_input<A: Audit>()
    ensures stated { EachEnding (answers_by A.notes A.answers) (λ r status. IsTrue (takes_input r.asked) → IfSome r.input.bytes
        (λ left. IsStated (status_of (outcome_by r.asked (done_in r.left) left)) status)) }
    ensures complete { EachEnding (answers_by A.notes A.answers) (λ r status. IsTrue (takes_input r.asked) → IfSome r.input.bytes
        (λ left. status_of (outcome_by r.asked (done_in r.left) left) ≡ 0
        → (Rose r.input.faults r.input.faults_after → ⊥) → (Rose r.out.faults r.out.faults_after → ⊥)
        → IsTrue (is_answered status) ⊎ (status ≡ 9))) }
    ensures reads_enough { EachEnding (answers_by A.notes A.answers) (λ r status. IsTrue (takes_input r.asked)
        → IsTrue (is_answered status) ⊎ (status ≡ 3) ⊎ (status ≡ 7) → ReadsEnough r.input.bytes r.input.bytes_after) }
{}

/// 6 comes exactly where a take failed, and 7 where a put into the output did: the count is one more then, and else the same.
pub fn faults_are_told_by_statuses<A: Audit>()
    ensures read_fault { EachEnding (answers_by A.notes A.answers) (λ r status. Counts r.input.faults r.input.faults_after (status == 6)) }
    ensures write_fault { EachEnding (answers_by A.notes A.answers) (λ r status. Counts r.out.faults r.out.faults_after (status == 7)) }
{}

/// The answer, which is that of some input, and of the one that is told, is printed whole at 0, 4 and 5, and in part at 7. At every other
/// status nothing is printed; but where memory is wanting while `show` prints, a part is.
pub fn answers_are_printed_as_words_and_input_have_them<A: Audit>()
    ensures printed { EachEnding (answers_by A.notes A.answers) (λ r status.
        IsTrue (takes_input r.asked) → IsTrue (is_answered status) → (text : List ℕ)
        × IsOutcomeBy r.asked (done_in r.left) (Ok text)
        × IfSome r.input.bytes (λ left. outcome_by r.asked (done_in r.left) left ≡ Ok text)
        × Appends r.out.bytes r.out.bytes_after text) }
    ensures printed_part { EachEnding (answers_by A.notes A.answers) (λ r status.
        IsTrue (takes_input r.asked) → status ≡ 7 → (text : List ℕ)
        × IsOutcomeBy r.asked (done_in r.left) (Ok text)
        × IfSome r.input.bytes (λ left. outcome_by r.asked (done_in r.left) left ≡ Ok text)
        × ((n : ℕ) × (n < length text) × Appends r.out.bytes r.out.bytes_after (take n text))) }
    ensures quiet { EachEnding (answers_by A.notes A.answers) (λ r status.
        is_answered status ≡ false → status ≢ 7 → status ≢ 9 → r.out.bytes_after ≡ r.out.bytes) }
    ensures printed_wanting { EachEnding (answers_by A.notes A.answers) (λ r status.
        status ≡ 9 → (r.out.bytes_after ≡ r.out.bytes) ⊎ ((text : List ℕ)
        × (s : Shows) × (r.asked ≡ Ok (shows s)) × IsOutcomeBy r.asked (done_in r.left) (Ok text)
        × IfSome r.input.bytes (λ left. outcome_by r.asked (done_in r.left) left ≡ Ok text)
        × ((n : ℕ) × (n ≤ length text) × Appends r.out.bytes r.out.bytes_after (take n text)))) }
{}

/// The line of the status is told, all of it, or a part where a put into the error text failed; its count counts just that. Of status 3 it
/// is the line of a refused input, told or not; of one that is told, of its outcome.
pub fn lines_are_told_by_statuses<A: Audit>()
    ensures told { EachEnding (answers_by A.notes A.answers) (λ r status. IfSome (line_at status r.asked (done_in r.left) r.input.bytes)
        (λ text. WritesLine r.err.bytes r.err.bytes_after r.err.faults r.err.faults_after text)) }
    ensures told_refusal { EachEnding (answers_by A.notes A.answers) (λ r status. status ≡ 3 → (stop : Stop) × (status_of (Err stop) ≡ 3)
        × IfSome r.input.bytes (λ left. outcome_by r.asked (done_in r.left) left ≡ Err stop)
        × WritesLine r.err.bytes r.err.bytes_after r.err.faults r.err.faults_after (stop_line stop)) }
{}

/// A replay ran over the lines of the input that is told, and left a trace that is lawful: at 0 a stop ended it, at 4 a wait that failed,
/// and at 5 its turns were spent; 7 comes behind any of these. At 9 what was done is lawful, and at 2, 3 and 6 nothing was done. But for
/// `serve`, `make` and pages 4 and 5 come of a replay alone.
pub fn replays_leave_lawful_runs<A: Audit>()
    ensures stopped { EachEnding (answers_by A.notes A.answers) (λ r status. (p : Replays) → r.asked ≡ Ok (replays p) → status ≡ 0
        → RunsTo p r.input.bytes r.left ends.Stopped) }
    ensures world_fault { EachEnding (answers_by A.notes A.answers) (λ r status. (p : Replays) → r.asked ≡ Ok (replays p) → status ≡ 4
        → RunsTo p r.input.bytes r.left ends.WorldFault) }
    ensures turns_spent { EachEnding (answers_by A.notes A.answers) (λ r status. (p : Replays) → r.asked ≡ Ok (replays p) → status ≡ 5
        → RunsTo p r.input.bytes r.left ends.TurnsSpent) }
    ensures unwritten { EachEnding (answers_by A.notes A.answers) (λ r status. (p : Replays) → r.asked ≡ Ok (replays p) → status ≡ 7
        → (end : ReplayEnds) × RunsTo p r.input.bytes r.left end) }
    ensures wanting { EachEnding (answers_by A.notes A.answers) (λ r status. (p : Replays) → r.asked ≡ Ok (replays p) → status ≡ 9
        → DoneLawfully p r.left.script.trace) }
    ensures nothing_done { EachEnding (answers_by A.notes A.answers) (λ r status.
        (status ≡ 2) ⊎ (status ≡ 3) ⊎ (status ≡ 6) → r.left.script.trace ≡ []) }
    ensures replays_alone { EachEnding (answers_by A.notes A.answers) (λ r status.
        IsTrue (takes_input r.asked) → (status ≡ 4) ⊎ (status ≡ 5)
        → (p : Replays) × (r.asked ≡ Ok (replays p))) }
{}

/// The headline holds of what a replay did, and `serve` over a world that tells its trace, behind which an answer stands: bytes of tunnels
/// are prefixes of those that came on the other side, upstreams are dialled for their tunnels, what is held is none forged, and no byte
/// goes unless that admits its peer.
pub fn runs_keep_the_headline<A: Audit>()
    ensures replays { EachEnding (answers_by A.notes A.answers) (λ r status. (p : Replays) → r.asked ≡ Ok (replays p)
        → (status ≡ 0) ⊎ (status ≡ 4) ⊎ (status ≡ 5) ⊎ (status ≡ 7) → KeepsHeadline (words_of p.run None) r.left.script.trace) }
    ensures serves { EachEnding (answers_by A.notes A.answers) (λ r status. (s : Serves) → r.asked ≡ Ok (serves s)
        → (status ≡ 0) ⊎ (status ≡ 4) ⊎ (status ≡ 5) ⊎ (status ≡ 7)
        → LeavesTrace r.world (λ trace. KeepsHeadline (words_of s.run s.ticks) trace)) }
{}

/// All notes of a replay that ends so were told to the audits, one after the other, each with its reason, and those are left that kept
/// each. At 2, 3 and 6 no note was told.
pub fn audits_hear_all_notes_of_a_replay<A: Audit>()
    ensures heard { EachEnding (answers_by A.notes A.answers) (λ r status. (p : Replays) → r.asked ≡ Ok (replays p)
        → (status ≡ 0) ⊎ (status ≡ 4) ⊎ (status ≡ 5) ⊎ (status ≡ 7)
        → HearsAll p r.world.heard (done_in r.left)) }
    ensures none_heard { EachEnding (answers_by A.notes A.answers) (λ r status. (status ≡ 2) ⊎ (status ≡ 3) ⊎ (status ≡ 6)
        → r.world.heard.after ≡ r.world.heard.before) }
{}

/// `serve`, `make` and pages, which read no input, end as their own tables say.
pub fn others_end_by_their_tables<A: Audit>()
    ensures serves { EachEnding (answers_by A.notes A.answers) (λ r status. (s : Serves) → r.asked ≡ Ok (serves s)
        → ServesAt s r.world r.out r.err status) }
    ensures makes { EachEnding (answers_by A.notes A.answers) (λ r status. (m : Makes) → r.asked ≡ Ok (makes m)
        → MakesAt m r.world.heard r.before r.left r.out r.err status) }
    ensures pages { EachEnding (answers_by A.notes A.answers) (λ r status. (p : Pages) → r.asked ≡ Ok (prints p)
        → PagesAt p r.world.heard r.before r.left r.out r.err status) }
{}
