//! The calls of the world that are due.

ghost use Rattle.std.specs.Prelude.{◌≡◌, true, IfNone};
ghost use Rattle.hb_relays.specs.Acts.{Acts};
ghost use Rattle.hb_relays.specs.Stirring.{StirsBut, closed_in};
ghost use Rattle.hb_relays.specs.Touched.{is_idle};
ghost use Rattle.hb_relays.specs.Walks.{ActsOf, GateActs, GoesTo, GoesToGate, LinkActs, closing_as, finished};

use crate::relays::Relays;
use hb_world::Act;

/// A close, of the link of this number.
fn closing_as(number: u64, act: Act) -> Act
    ensures { result ≡ closing_as number act }
{
    match act {
        Act::Close { cause, .. } => Act::Close {
            link: number,
            cause,
        },
        _ => act,
    }
}

impl Relays {
    /// An act of the link of this number was given. A close is of the link itself, or of its upstream.
    fn finish(&mut self, number: u64, act: Act)
        ensures { self.new ≡ finished number act self.old }
    {
        if let Act::Close { link, .. } = act {
            if link == number {
                self.relays.remove(number);
            } else {
                self.ups.remove(link);
            }
        }
        self.touch(number);
    }

    /// The act that is due of the link of this number.
    fn act_of(&mut self, number: u64) -> Option<Act>
        ensures acts { ActsOf number result self.old self.new }
        ensures stirs { StirsBut (closed_in result) self.old self.new }
    {
        let Some(relay) = self.relays.at(number) else {
            return None;
        };
        let Some(act) = relay.next_act() else {
            return None;
        };
        self.finish(number, act);
        Some(act)
    }

    /// The next link that may have an act due.
    fn next_due(&mut self) -> Option<u64>
        ensures goes { GoesTo result self.old self.new }
        ensures none { IfNone result (is_idle self.new.due ≡ true) }
    {
        self.due.next(&self.relays)
    }

    /// The act that is due of the links that were accepted.
    fn link_act(&mut self) -> Option<Act>
        ensures acts { LinkActs result self.old self.new }
        ensures none { IfNone result (is_idle self.new.due ≡ true) }
        ensures stirs { StirsBut (closed_in result) self.old self.new }
    {
        while let Some(number) = self.next_due() {
            if let Some(act) = self.act_of(number) {
                return Some(act);
            }
        }
        None
    }

    /// The close that is due of the link to a gateway of this number.
    fn gate_act(&mut self, number: u64) -> Option<Act>
        ensures acts { GateActs number result self.old self.new }
        ensures stirs { StirsBut (closed_in result) self.old self.new }
    {
        let Some(gate) = self.gates.at(number) else {
            return None;
        };
        let Some(act) = gate.next_act() else {
            return None;
        };
        self.gates.remove(number);
        self.touch_gate(number);
        Some(closing_as(number, act))
    }

    /// The next link to a gateway that may have an act due.
    fn next_gate_due(&mut self) -> Option<u64>
        ensures goes { GoesToGate result self.old self.new }
        ensures none { IfNone result (is_idle self.new.gate_due ≡ true) }
    {
        self.gate_due.next(&self.gates)
    }

    /// The act that is due of the links to gateways.
    fn gates_act(&mut self) -> Option<Act>
        ensures acts { LinkActs result self.old self.new }
        ensures none { IfNone result (is_idle self.new.gate_due ≡ true) }
        ensures due { IfNone result (self.new.due ≡ self.old.due) }
        ensures stirs { StirsBut (closed_in result) self.old self.new }
    {
        while let Some(number) = self.next_gate_due() {
            if let Some(act) = self.gate_act(number) {
                return Some(act);
            }
        }
        None
    }

    /// The call that is due, `None` where none is. A shut or a close counts as done from now on; a dial stays due until its answer is
    /// told.
    pub fn next_act(&mut self) -> Option<Act>
        ensures acts { Acts result self.old self.new }
        ensures none { IfNone result ((is_idle self.new.due ≡ true) × (is_idle self.new.gate_due ≡ true)) }
        ensures stirs { StirsBut (closed_in result) self.old self.new }
    {
        match self.link_act() {
            Some(act) => Some(act),
            None => self.gates_act(),
        }
    }
}
