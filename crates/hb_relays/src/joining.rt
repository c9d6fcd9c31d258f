//! How a link whose way leads by a gateway gets its stream.

ghost use Rattle.std.specs.Prelude.{OnOk};
ghost use Rattle.hb_gateway.specs.Keys.{key_as};
ghost use Rattle.hb_relays.specs.Joining.{OffersAt, IsBehind, FirstOffers, MayAsk, IsWanting, Joins, Refuses};
ghost use Rattle.hb_relays.specs.Stirring.{Stirs};

use crate::relays::Relays;
use crate::telling::tell;
use hb_base::{NoMemory, Target};
use hb_gate::Gate;
use hb_gateway::Key;
use hb_link::Notes;
use hb_map::ById;

/// Whether the link to a gateway of this number, if there is one, is for this key and has room.
fn offers_at(gates: &ById<u64, Gate>, number: u64, key: &Key) -> bool
    ensures { OffersAt gates.now number (key_as key.now) result }
{
    match gates.get(number) {
        Some(gate) => gate.offers() && gate.is_for(key),
        None => false,
    }
}

/// The least number behind this one that has a value.
pub(crate) fn next_behind<T>(items: &ById<u64, T>, number: u64) -> Option<u64>
    ensures { IsBehind items.now number result }
{
    match number.checked_add(1) {
        Some(from) => items.first_from(from),
        None => None,
    }
}

/// The link to a gateway of this key that was born first of those that have room. `None` where none has.
fn first_offering(gates: &ById<u64, Gate>, key: &Key) -> Option<u64>
    ensures { FirstOffers gates.now (key_as key.now) result }
{
    let mut from = gates.first_from(0);
    while let Some(number) = from {
        if offers_at(gates, number, key) {
            return Some(number);
        }
        from = next_behind(gates, number);
    }
    None
}

impl Relays {
    /// Of which link to a gateway a stream is to be asked for the link of this number, and for which authority: where it wants one, and a
    /// link of its key has room. `None` where not.
    fn asks(&self, link: u64) -> Option<(u64, Target)>
        ensures { MayAsk link self.now result }
    {
        let relay = self.relays.get(link)?;
        let (key, authority) = relay.wanted()?;
        let number = first_offering(&self.gates, key)?;
        Some((number, authority))
    }

    /// A stream is asked for the link of this number, where it wants one and a link of its key has room.
    ///
    /// Errors: `NoMemory`, behind which the run ends.
    pub(crate) fn join(&mut self, link: u64) -> Result<(), NoMemory>
        ensures joins { OnOk result (Joins link self.old self.new) }
        ensures stirs { OnOk result (Stirs self.old self.new) }
    {
        let Some((number, authority)) = self.asks(link) else {
            return Ok(());
        };
        let Some(relay) = self.relays.at(link) else {
            return Ok(());
        };
        let Some(gate) = self.gates.at(number) else {
            return Ok(());
        };
        let stream = gate.ask(link, authority)?;
        relay.asked(number, stream);
        self.touch(link);
        self.touch_gate(number);
        Ok(())
    }

    /// Whether the link of this number wants a stream.
    fn wants_stream(&self, link: u64) -> bool
        ensures { IsWanting link self.now result }
    {
        match self.relays.get(link) {
            Some(relay) => relay.wanted().is_some(),
            None => false,
        }
    }

    /// Where it still wants one, and no link to its gateway may be dialled, it is refused.
    pub(crate) fn refuse_roomless<N: Notes>(&mut self, link: u64, room: bool, notes: &mut N)
        ensures refuses { Refuses link room self.old (N.told notes.old) self.new (N.told notes.new) }
        ensures stirs { Stirs self.old self.new }
    {
        if room {
            return;
        }
        if !self.wants_stream(link) {
            return;
        }
        let Some(relay) = self.relays.at(link) else {
            return;
        };
        let made = relay.lacks_room(&mut self.routes);
        self.touch(link);
        tell(made, notes);
    }
}
