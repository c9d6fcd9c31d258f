//! The notes of a run, kept or not.

ghost use Rattle.std.specs.Prelude.{◌≡◌, ◌++◌, ◌∷◌, [], Some, None, OnOk};
ghost use Rattle.std.specs.Option.{is_some, option_map};
ghost use Rattle.hb_turns.specs.Notes.{held};

use hb_base::{List, NoMemory, Note};
use std::alloc::Global;
use std::marker::Model;

/// The notes of a run, in order, or none of them. Contracts see the notes that are kept; `None`: none are.
#[derive(Drop)]
pub struct Keep {
    notes: Option<List<Note>>,
}

impl Model for Keep {
    ghost use Rattle.std.specs.Prelude.{List as list, Option as option};
    ghost use Rattle.hb_base.specs.declared.note.Note.{Note};

    ghost Value = { option (list Note) };

    ghost view = { λ k. k.notes };
}

impl Keep {
    /// One that keeps no note.
    pub fn none() -> Keep
        ensures { result ≡ None }
    {
        Keep { notes: None }
    }

    /// One that keeps each note, and has none yet.
    pub fn all(alloc: Global) -> Keep
        ensures { result ≡ Some [] }
    {
        Keep {
            notes: Some(List::new(alloc)),
        }
    }

    /// One of the same kind, without a note.
    pub(crate) fn emptied(&self, alloc: Global) -> Keep
        ensures { result ≡ option_map (λ notes. []) self.now }
    {
        match &self.notes {
            None => Keep::none(),
            Some(_) => Keep::all(alloc),
        }
    }

    /// Whether it keeps notes.
    pub fn keeps(&self) -> bool
        ensures { result ≡ is_some self.now }
    {
        self.notes.is_some()
    }

    /// The notes that are kept, in order.
    pub fn notes(&self) -> &[Note]
        ensures { result.now ≡ held self.now }
    {
        match &self.notes {
            None => &[],
            Some(notes) => notes.as_slice(),
        }
    }

    /// One more note.
    ///
    /// Errors: `NoMemory`, and then the note is dropped.
    pub(crate) fn add(&mut self, note: Note) -> Result<(), NoMemory>
        ensures { OnOk result (self.new ≡ option_map (λ notes. notes ++ note ∷ []) self.old) }
    {
        match &mut self.notes {
            None => Ok(()),
            Some(notes) => notes.push(note),
        }
    }
}
