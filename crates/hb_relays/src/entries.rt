//! What comes and goes on links that are open.

ghost use Rattle.std.specs.Prelude.{◌≡◌, ◌≤◌, length, None, OnOk};
ghost use Rattle.std.specs.FinMap.{get};
ghost use Rattle.hb_world.specs.declared.entry.Entry.TheVariants as e;
ghost use Rattle.hb_relays.specs.Calls.{Enters, GateEnters, GateTakes, GateGoes, Goes, Takes, gate_wants, gate_output, wants_of, held_of};
ghost use Rattle.hb_relays.specs.Leaving.{BegunOn};
ghost use Rattle.hb_relays.specs.Stirring.{Stirs};

use crate::relays::Relays;
use crate::telling::tell;
use hb_base::NoMemory;
use hb_gate::Gate;
use hb_held::Held;
use hb_link::Notes;
use hb_map::ById;

/// How many bytes have begun to go on a stream of a link to a gateway.
fn begun_on(gates: &ById<u64, Gate>, number: u64, stream: u32) -> u64
    ensures { BegunOn (get gates.now number) stream result }
{
    match gates.get(number) {
        Some(gate) => gate.begun(stream),
        None => 0,
    }
}

impl Relays {
    /// The link to a gateway of this number is open.
    fn gate_opened<N: Notes>(&mut self, number: u64, notes: &mut N)
        ensures meets { GateEnters number (e.Opened number) self.old (N.told notes.old) self.new (N.told notes.new) }
        ensures stirs { Stirs self.old self.new }
    {
        let Some(gate) = self.gates.at(number) else {
            return;
        };
        gate.opened();
        self.touch_gate(number);
    }

    /// The upstream of this number, or the link to a gateway, is open.
    pub fn opened<N: Notes>(&mut self, number: u64, notes: &mut N)
        ensures meets { Enters number (e.Opened number) self.old (N.told notes.old) self.new (N.told notes.new) }
        ensures stirs { Stirs self.old self.new }
    {
        let Some(link) = self.ups.get(number).copied() else {
            self.gate_opened(number, notes);
            return;
        };
        let Some(relay) = self.relays.at(link) else {
            return;
        };
        let made = relay.up_opened();
        self.touch(link);
        tell(Some(made), notes);
    }

    /// These bytes were read of the link to a gateway of this number.
    fn gate_took<N: Notes>(&mut self, number: u64, b: &[u8], notes: &mut N) -> Result<(), NoMemory>
        requires { length b.now ≤ gate_wants (get self.old.gates number) }
        ensures meets { OnOk result (GateTakes number b.now self.old (N.told notes.old) self.new (N.told notes.new)) }
        ensures stirs { OnOk result (Stirs self.old self.new) }
    {
        let Some(gate) = self.gates.at(number) else {
            return Ok(());
        };
        gate.take_bytes(b);
        self.touch_gate(number);
        self.look_all(number, notes)
    }

    /// These bytes were read, while this was held; `room`: and one link more may be, so that one to a gateway may be dialled.
    ///
    /// Errors: `NoMemory`, behind which the run ends.
    pub fn took<N: Notes>(
        &mut self,
        number: u64,
        held: &Held,
        room: bool,
        b: &[u8],
        notes: &mut N,
    ) -> Result<(), NoMemory>
        requires { length b.now ≤ wants_of self.old number }
        ensures meets { OnOk result (Takes held.now room number b.now self.old (N.told notes.old) self.new (N.told notes.new)) }
        ensures stirs { OnOk result (Stirs self.old self.new) }
    {
        match self.ups.get(number).copied() {
            Some(link) => {
                let Some(relay) = self.relays.at(link) else {
                    return Ok(());
                };
                relay.up_bytes(b);
                self.touch(link);
                Ok(())
            }
            None => {
                let Some(relay) = self.relays.at(number) else {
                    return self.gate_took(number, b, notes);
                };
                let made = relay.take_bytes(held, &mut self.routes, b);
                self.touch(number);
                tell(made, notes);
                self.join(number)?;
                self.refuse_roomless(number, room, notes);
                self.pump_link(number, notes);
                Ok(())
            }
        }
    }

    /// The gateway of the link of this number sends no more.
    fn gate_ended<N: Notes>(&mut self, number: u64, notes: &mut N)
        ensures meets { GateEnters number (e.Ended number) self.old (N.told notes.old) self.new (N.told notes.new) }
        ensures stirs { Stirs self.old self.new }
    {
        let Some(gate) = self.gates.at(number) else {
            return;
        };
        gate.ended();
        self.touch_gate(number);
        self.settle_gate(number, notes);
    }

    /// The peer of the link of this number sends no more.
    pub fn ended<N: Notes>(&mut self, number: u64, notes: &mut N)
        ensures meets { Enters number (e.Ended number) self.old (N.told notes.old) self.new (N.told notes.new) }
        ensures stirs { Stirs self.old self.new }
    {
        match self.ups.get(number).copied() {
            Some(link) => {
                let Some(relay) = self.relays.at(link) else {
                    return;
                };
                let made = relay.up_ended(&mut self.routes);
                self.touch(link);
                tell(made, notes);
            }
            None => {
                let Some(relay) = self.relays.at(number) else {
                    self.gate_ended(number, notes);
                    return;
                };
                let made = relay.ended(&mut self.routes);
                self.touch(number);
                tell(made, notes);
                self.pump_link(number, notes);
            }
        }
    }

    /// A call on the link to a gateway of this number failed.
    fn gate_broke<N: Notes>(&mut self, number: u64, notes: &mut N)
        ensures meets { GateEnters number (e.Broke number) self.old (N.told notes.old) self.new (N.told notes.new) }
        ensures stirs { Stirs self.old self.new }
    {
        let Some(gate) = self.gates.at(number) else {
            return;
        };
        gate.broke();
        self.touch_gate(number);
        self.settle_gate(number, notes);
    }

    /// A call on the link of this number failed.
    pub fn broke<N: Notes>(&mut self, number: u64, notes: &mut N)
        ensures meets { Enters number (e.Broke number) self.old (N.told notes.old) self.new (N.told notes.new) }
        ensures stirs { Stirs self.old self.new }
    {
        match self.ups.get(number).copied() {
            Some(link) => {
                let Some(relay) = self.relays.at(link) else {
                    return;
                };
                let made = relay.up_broke(&mut self.routes);
                self.touch(link);
                tell(made, notes);
            }
            None => self.link_broke(number, notes),
        }
    }

    /// A call on a link itself failed, or on one to a gateway: a link gives its stream up, where it has one.
    fn link_broke<N: Notes>(&mut self, number: u64, notes: &mut N)
        ensures meets { get self.old.ups number ≡ None
            → Enters number (e.Broke number) self.old (N.told notes.old) self.new (N.told notes.new) }
        ensures stirs { Stirs self.old self.new }
    {
        let Some(relay) = self.relays.at(number) else {
            self.gate_broke(number, notes);
            return;
        };
        let Some((gate, stream)) = relay.stream() else {
            let made = relay.broke(0, &mut self.routes);
            self.touch(number);
            tell(made, notes);
            return;
        };
        let begun = begun_on(&self.gates, gate, stream);
        let made = relay.broke(begun, &mut self.routes);
        self.touch(number);
        tell(made, notes);
        self.give_up(gate, stream);
        self.pump_gate(gate, notes);
    }

    /// The first `count` bytes that waited were written to the link to a gateway of this number.
    fn gate_wrote<N: Notes>(&mut self, number: u64, count: usize, notes: &mut N)
        requires { count ≤ length (gate_output (get self.old.gates number)) }
        ensures meets { GateGoes number count self.old (N.told notes.old) self.new (N.told notes.new) }
        ensures stirs { Stirs self.old self.new }
    {
        let Some(gate) = self.gates.at(number) else {
            return;
        };
        let last = gate.last_words();
        gate.wrote(count);
        self.touch_gate(number);
        if last {
            return;
        }
        self.pump_gate(number, notes);
    }

    /// The first `count` bytes that waited were written.
    pub fn wrote<N: Notes>(&mut self, number: u64, count: usize, notes: &mut N)
        requires { count ≤ length (held_of self.old number) }
        ensures meets { Goes number count self.old (N.told notes.old) self.new (N.told notes.new) }
        ensures stirs { Stirs self.old self.new }
    {
        match self.ups.get(number).copied() {
            Some(link) => {
                let Some(relay) = self.relays.at(link) else {
                    return;
                };
                let made = relay.up_wrote(count, &mut self.routes);
                self.touch(link);
                tell(made, notes);
            }
            None => {
                let Some(relay) = self.relays.at(number) else {
                    self.gate_wrote(number, count, notes);
                    return;
                };
                let made = relay.wrote(count, &mut self.routes);
                self.touch(number);
                tell(made, notes);
                self.pump_link(number, notes);
            }
        }
    }
}
