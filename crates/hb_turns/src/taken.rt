//! The notes of a run that were taken.

ghost use Rattle.std.specs.Prelude.{◌++◌, ◌∷◌, [], List, OnOk};
ghost use Rattle.hb_base.specs.declared.note.Note.{Note};
ghost use Rattle.hb_turns.specs.Notes.{AreTaken};

use crate::keep::Keep;
use crate::sums::Sums;
use hb_base::{NoMemory, Note};

/// The notes of a run that were taken: those that are kept, and what is counted in them all.
#[derive(Drop)]
pub struct Taken {
    pub keep: Keep,
    pub sums: Sums,
}

impl Taken {
    /// One more note.
    ///
    /// Errors: `NoMemory`, and then the note is dropped.
    pub fn add(&mut self, note: Note) -> Result<(), NoMemory>
        ensures { (notes : List Note) → AreTaken self.old notes → OnOk result (AreTaken self.new (notes ++ note ∷ [])) }
    {
        self.sums.add(&note);
        self.keep.add(note)
    }
}
