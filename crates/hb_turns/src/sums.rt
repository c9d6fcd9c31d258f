//! What is counted in the notes of a run.

ghost use Rattle.std.specs.Prelude.{◌≡◌, ◌++◌, ◌∷◌, [], List, cond};
ghost use Rattle.hb_base.specs.declared.note.Note.{Note};
ghost use Rattle.hb_turns.specs.Totals.{is_accepted, is_lacking, up_of, down_of, sums_of};

use hb_base::Note;

/// What is counted in the notes of a run. Each stops at 2^64 - 1.
#[derive(Clone, Copy)]
pub struct Sums {
    /// The tunnels that were let through.
    pub accepted: u64,
    /// The bytes that the tunnels that ended had passed up.
    pub up: u64,
    /// The bytes that the tunnels that ended had passed down.
    pub down: u64,
    /// A tunnel was answered 500: memory was wanting for it.
    pub lacked: bool,
}

/// How many tunnels were let through, by this note.
fn accepted_of(note: &Note) -> u64
    ensures { result ≡ cond (is_accepted note.now) 1 0 }
{
    match note {
        Note::Verdict { status: 200, .. } => 1,
        _ => 0,
    }
}

/// The bytes that a tunnel had passed up when it ended.
fn up_of(note: &Note) -> u64
    ensures { result ≡ up_of note.now }
{
    match note {
        Note::End { up, .. } => *up,
        Note::Verdict { .. } => 0,
    }
}

/// The bytes that a tunnel had passed down when it ended.
fn down_of(note: &Note) -> u64
    ensures { result ≡ down_of note.now }
{
    match note {
        Note::End { down, .. } => *down,
        Note::Verdict { .. } => 0,
    }
}

/// A tunnel was answered 500, by this note.
fn is_lacking(note: &Note) -> bool
    ensures { result ≡ is_lacking note.now }
{
    match note {
        Note::Verdict { status: 500, .. } => true,
        _ => false,
    }
}

impl Sums {
    /// Those of no note.
    pub fn new() -> Sums
        ensures { result ≡ sums_of [] }
    {
        Sums {
            accepted: 0,
            up: 0,
            down: 0,
            lacked: false,
        }
    }

    /// One more note.
    pub fn add(&mut self, note: &Note)
        ensures { (notes : List Note) → self.old ≡ sums_of notes → self.new ≡ sums_of (notes ++ note.now ∷ []) }
    {
        self.accepted = self.accepted.saturating_add(accepted_of(note));
        self.up = self.up.saturating_add(up_of(note));
        self.down = self.down.saturating_add(down_of(note));
        self.lacked = self.lacked || is_lacking(note);
    }
}
