//! The notes that a link makes.

ghost use Rattle.std.specs.Prelude.{◌∷◌, []};
ghost use Rattle.hb_link.specs.Noted.{Takes};
ghost use Rattle.hb_lives_rows.specs.Kept.{kept};

use hb_base::{Cause, Note, Peer, Target};
use hb_link::Notes;
use std::alloc::Global;

/// All notes, in order; of those in front of `at` the words were asked for.
#[derive(Drop)]
pub struct Told {
    pub alloc: Global,
    pub notes: Vec<Note>,
    /// Memory was wanting for a note.
    pub lost: bool,
    pub at: usize,
}

impl Told {
    fn keep(&mut self, note: Note)
        ensures { Takes (kept self.old.lost self.old.notes.items) (note ∷ []) (kept self.new.lost self.new.notes.items) }
    {
        if self.notes.push(note).is_err() {
            self.lost = true;
        }
    }
}

impl Notes for Told {
    ghost use Rattle.hb_lives_rows.specs.Kept.{kept};

    ghost told = { λ t. kept t.lost t.notes.items };

    fn verdict(
        &mut self,
        link: u64,
        stream: u32,
        status: u16,
        peer: &Peer,
        target: Option<Target>,
    ) {
        match peer.copy(self.alloc) {
            Ok(peer) => self.keep(Note::Verdict {
                link,
                stream,
                status,
                peer,
                target,
            }),
            Err(_) => self.lost = true,
        }
    }

    fn end(&mut self, link: u64, stream: u32, cause: Cause, up: u64, down: u64) {
        self.keep(Note::End {
            link,
            stream,
            cause,
            up,
            down,
        });
    }
}
