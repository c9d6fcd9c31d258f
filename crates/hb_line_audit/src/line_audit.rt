//! An audit that writes a line for each note, and for the reason of a refusal.

ghost use Rattle.std.specs.Prelude.{◌≡◌, ◌≤◌, ◌≢◌, ◌⊎◌, [], true, false, None, Some, IfOk, OnOk};
ghost use Rattle.std.specs.String.{string_bytes};
ghost use Rattle.std.specs.Io.KnownBytes.{Keeps};
ghost use Rattle.hb_base.specs.Count.{Counts, Rose};
ghost use Rattle.hb_audit.specs.Held.{held_after, has_failed};
ghost use Rattle.hb_audit.specs.Told.{told_of};
ghost use Rattle.hb_line_audit.specs.Lines.{handed, lost_line};
ghost use Rattle.hb_line_audit.specs.LineAudit.{TakesLine};
ghost use Rattle.hb_line_audit.specs.Notes.{TakesNote};
ghost use Rattle.hb_line_audit.specs.Why.{told_line};

use crate::lines::Lines;
use crate::polled::Polled;
use crate::why::add_told;
use hb_audit::{Audit, Noted, Reason};
use hb_base::{NoMemory, Note};
use std::alloc::Global;

/// How many bytes a line may have for which no memory is taken.
const LINE: usize = 512;

/// How many bytes the line has that tells of lost lines, at most.
const LOST: usize = 64;

/// Hands the line of each note, and that of its reason with it, to a sink that is asked whether it takes more. Up to 262,144 bytes wait
/// until it does; a line for which there is no room is lost, whole, with that of its reason, and counted once, and in front of the next
/// that finds room stands `hbone: N lines lost`. It tells no notes. It fails where a put did, and from then on nothing is put. `over`
/// takes the memory for what waits and for lines of up to 512 bytes; what a longer one took is kept for the next.
#[derive(Drop)]
pub struct LineAudit<K> {
    alloc: Global,
    lines: Lines<K>,
    line: String,
    told: String,
    /// How often it failed.
    faults: u64,
}

/// Writes the line that tells how many lines were lost, where some were, in place of what stood there.
///
/// Errors: `NoMemory`.
fn tell_lost(lost: u64, told: &mut String) -> Result<(), NoMemory>
    ensures { OnOk result (string_bytes told.new ≡ lost_line lost) }
{
    told.clear();
    if lost == 0 {
        return Ok(());
    }
    write!(told, "hbone: {lost} lines lost\n")
}

impl<K: Polled + Drop> LineAudit<K> {
    /// An audit over a sink, before any note.
    ///
    /// Errors: `NoMemory`, and then the sink is dropped.
    pub fn over(alloc: Global, sink: K) -> Result<LineAudit<K>, NoMemory>
        ensures { IfOk result (λ audit. audit.lines ≡ record { sink = sink; waits = []; lost = 0; failed = false }) }
    {
        let lines = Lines::over(alloc, sink)?;
        let line = String::with_capacity(alloc, LINE)?;
        let told = String::with_capacity(alloc, LOST)?;
        Ok(LineAudit {
            alloc,
            lines,
            line,
            told,
            faults: 0,
        })
    }

    /// The sink.
    pub fn sink(&self) -> &K
        ensures { result.now ≡ self.now.lines.sink }
    {
        self.lines.sink()
    }

    /// The line that stands ready is taken.
    #[tactic(auto, using(crate::proofs::Handed::keeps_next, crate::proofs::Handed::adds, crate::proofs::Handed::adds_behind))]
    fn take_line(&mut self) -> Noted
        ensures taken { TakesLine K.written self.old.lines self.new.lines (string_bytes self.old.line) result }
        ensures later { self.old.faults ≤ self.new.faults }
        ensures counts { Counts self.old.faults self.new.faults (has_failed result) }
    {
        if tell_lost(self.lines.lost(), &mut self.told).is_err() {
            return Noted::NoMemory;
        }
        if !self
            .lines
            .has_room(self.told.as_bytes(), self.line.as_bytes())
        {
            self.lines.flush();
        }
        if self.lines.has_failed() {
            self.faults = self.faults.saturating_add(1);
            return Noted::Failed;
        }
        self.lines.add(self.told.as_bytes(), self.line.as_bytes());
        Noted::Kept
    }

    /// Takes the line of a note, and that of its reason, which wait until a flush.
    pub fn take(&mut self, n: &Note, reason: Option<Reason<'_>>) -> Noted
        ensures taken { TakesLine K.written self.old.lines self.new.lines (told_line (told_of n.now reason.entry)) result }
        ensures later { self.old.faults ≤ self.new.faults }
        ensures counts { Counts self.old.faults self.new.faults (has_failed result) }
    {
        self.line.clear();
        if add_told(self.alloc, n, reason, &mut self.line).is_err() {
            return Noted::NoMemory;
        }
        self.take_line()
    }

    /// Takes a line of other words, with its newline, which waits until a flush.
    pub fn tell(&mut self, line: &str) -> Noted
        ensures taken { TakesLine K.written self.old.lines self.new.lines line.now result }
        ensures later { self.old.faults ≤ self.new.faults }
        ensures counts { Counts self.old.faults self.new.faults (has_failed result) }
    {
        self.line.clear();
        if self.line.push_str(line).is_err() {
            return Noted::NoMemory;
        }
        self.take_line()
    }

    /// Writes what waits, as far as the sink takes it without a wait.
    pub fn flush(&mut self)
        ensures kept { Keeps (handed K.written self.old.lines) (handed K.written self.new.lines) }
        ensures lost { self.new.lines.lost ≡ self.old.lines.lost }
        ensures rests { self.new.lines.failed ≡ false
            → (self.new.lines.waits ≡ []) ⊎ (K.answer self.new.lines.sink ≡ Some false) }
        ensures asks { self.old.lines.failed ≡ false → self.old.lines.waits ≢ []
            → Rose (K.asked self.old.lines.sink) (K.asked self.new.lines.sink) }
        ensures counts { self.old.lines.failed ≡ false
            → Counts (K.faults self.old.lines.sink) (K.faults self.new.lines.sink) self.new.lines.failed }
        ensures ended { self.old.lines.failed ≡ true → self.new.lines ≡ self.old.lines }
        ensures faults { self.new.faults ≡ self.old.faults }
    {
        self.lines.flush();
    }
}

impl<K: Polled + Drop> Audit for LineAudit<K> {
    ghost use Rattle.std.specs.Prelude.{None};
    ghost use Rattle.hb_line_audit.specs.Notes.{TakesNote};
    ghost use Rattle.hb_line_audit.specs.Why.{told_line};

    ghost notes = { λ a. None };

    ghost faults = { λ a. a.faults };

    ghost answers = { λ a t answer after. TakesNote K.written a t answer after };

    /// Takes the note's line, and that of its reason, and writes what waits, as far as the sink takes it.
    fn note(&mut self, n: &Note, reason: Option<Reason<'_>>) -> Noted
        ensures own { TakesNote K.written self.old (told_of n.now reason.entry) result self.new }
        ensures held { None ≡ held_after None n.now result }
        ensures later { self.old.faults ≤ self.new.faults }
        ensures counts { Counts self.old.faults self.new.faults (has_failed result) }
    {
        let noted = self.take(n, reason);
        self.flush();
        noted
    }

    /// False: it tells no notes.
    fn holds(&self, _place: usize, _n: &Note) -> bool {
        false
    }
}
