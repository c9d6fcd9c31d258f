//! The answers to the dials of upstreams.

ghost use Rattle.std.specs.Prelude.{OnOk};
ghost use Rattle.hb_links.specs.Calls.{Dials, DialFails};
ghost use Rattle.hb_links.specs.Load.{Recounts};
ghost use Rattle.hb_links.specs.Stirring.{Stirs};

use crate::links::Links;
use crate::place::Place;
use hb_base::NoMemory;
use hb_link::Notes;

impl Links {
    /// The dial for the tunnel on a stream of a link gave the link of this number.
    ///
    /// Errors: `NoMemory`, behind which the run ends.
    pub fn dialled(&mut self, link: u64, stream: u32, number: u64) -> Result<(), NoMemory>
        ensures meets { OnOk result (Dials link stream number self.old self.new) }
        ensures stirs { OnOk result (Stirs self.old self.new) }
        ensures counts { OnOk result (Recounts self.old self.new) }
    {
        self.ups.put(number, Place { link, stream })?;
        let before = self.places_at(link);
        let Some(at) = self.links.at(link) else {
            self.touch(link, before);
            return Ok(());
        };
        at.dialled(stream, number);
        self.touch(link, before);
        Ok(())
    }

    /// It gave none.
    pub fn dial_failed<N: Notes>(&mut self, link: u64, stream: u32, notes: &mut N)
        ensures meets { DialFails link stream self.old (N.told notes.old) self.new (N.told notes.new) }
        ensures stirs { Stirs self.old self.new }
        ensures counts { Recounts self.old self.new }
    {
        let before = self.places_at(link);
        let Some(at) = self.links.at(link) else {
            return;
        };
        at.dial_failed(stream, notes);
        self.touch(link, before);
    }
}
