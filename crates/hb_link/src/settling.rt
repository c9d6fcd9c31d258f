//! What follows by itself.

ghost use Rattle.hb_link.specs.Rousing.{Rouses};
ghost use Rattle.hb_link.specs.Settling.{IsMarked, AlwaysSettles};
ghost use Rattle.hb_link.specs.Shows.{Shows};

use crate::link::Link;
use crate::notes::Notes;

impl Link {
    /// All that follows by itself where all that came was looked at: each tunnel that ended gets what it gets, and what may be put is put.
    pub(crate) fn settle<N: Notes>(&mut self, notes: &mut N)
        ensures settles { AlwaysSettles IsMarked Shows self.old (N.told notes.old) self.new (N.told notes.new) }
        ensures rouses { Rouses self.old self.new }
    {
        self.answer_all(notes);
        self.put_all(notes);
    }
}
