//! The answers to the dials of destinations.

ghost use Rattle.std.specs.Prelude.{OnOk};
ghost use Rattle.hb_relays.specs.Calls.{Dials, DialFails};
ghost use Rattle.hb_relays.specs.Stirring.{Stirs};

use crate::relays::Relays;
use crate::telling::tell;
use hb_base::NoMemory;
use hb_link::Notes;

impl Relays {
    /// The dial for a link gave the link of this number.
    ///
    /// Errors: `NoMemory`, behind which the run ends.
    pub fn dialled(&mut self, link: u64, number: u64) -> Result<(), NoMemory>
        ensures meets { OnOk result (Dials link number self.old self.new) }
        ensures stirs { OnOk result (Stirs self.old self.new) }
    {
        let Some(relay) = self.relays.at(link) else {
            return Ok(());
        };
        relay.dialled(number);
        self.ups.put(number, link)?;
        self.touch(link);
        Ok(())
    }

    /// It gave none.
    pub fn dial_failed<N: Notes>(&mut self, link: u64, notes: &mut N)
        ensures meets { DialFails link self.old (N.told notes.old) self.new (N.told notes.new) }
        ensures stirs { Stirs self.old self.new }
    {
        let Some(relay) = self.relays.at(link) else {
            return;
        };
        let made = relay.dial_failed(&mut self.routes);
        self.touch(link);
        tell(made, notes);
    }
}
