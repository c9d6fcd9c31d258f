//! What is told to all links at once.

ghost use Rattle.std.specs.Prelude.{Some};
ghost use Rattle.std.specs.FinMap.{get};
ghost use Rattle.hb_relay.specs.Calls.{Updates as Judges};
ghost use Rattle.hb_relays.specs.Calls.{Updates, Stops as AllStop};
ghost use Rattle.hb_relays.specs.Leaving.{StopsAt, StopsGate, StopsGates, StopsLinks, TakesAt};
ghost use Rattle.hb_relays.specs.Stirring.{Stirs};
ghost use Rattle.hb_relays.specs.Walks.{TellsBy};

use crate::joining::next_behind;
use crate::relays::Relays;
use crate::telling::tell;
use hb_base::Cause;
use hb_gate::Gate;
use hb_held::Held;
use hb_link::Notes;
use hb_map::ById;

/// What the tunnel on a stream is to be told of its end is taken: how many of its bytes have begun to go.
fn take_mail(gates: &mut ById<u64, Gate>, gate: u64, stream: u32) -> u64
    ensures { TakesAt (Some (gate, stream)) result gates.old gates.new }
{
    match gates.at(gate) {
        Some(gate) => match gate.take_mail(stream) {
            Some(mail) => mail.begun,
            None => 0,
        },
        None => 0,
    }
}

/// So it is of the stream that a link has, where it has one.
fn take_its_mail(gates: &mut ById<u64, Gate>, at: Option<(u64, u32)>) -> u64
    ensures { TakesAt at result gates.old gates.new }
{
    match at {
        Some((gate, stream)) => take_mail(gates, gate, stream),
        None => 0,
    }
}

impl Relays {
    /// What a response that was applied makes of the link of this number.
    fn judge_at<N: Notes>(&mut self, number: u64, held: &Held, notes: &mut N)
        ensures tells { TellsBy (Judges held.now) (get self.old.relays number) number self.old (N.told notes.old) self.new
            (N.told notes.new) }
        ensures stirs { Stirs self.old self.new }
    {
        let Some(relay) = self.relays.at(number) else {
            return;
        };
        let made = relay.judge(held);
        if made.is_some() {
            self.touch(number);
        }
        tell(made, notes);
    }

    /// What the end of the run makes of the link to a gateway of this number.
    fn stop_gate(&mut self, number: u64, cause: Cause)
        ensures stops { StopsGate cause (get self.old.gates number) number self.old self.new }
        ensures stirs { Stirs self.old self.new }
    {
        let Some(gate) = self.gates.at(number) else {
            return;
        };
        gate.stopped(cause);
        self.touch_gate(number);
    }

    /// What it makes of all of them.
    fn stop_gates(&mut self, cause: Cause)
        ensures stops { StopsGates cause self.old self.new }
        ensures stirs { Stirs self.old self.new }
    {
        let mut from = self.gates.first_from(0);
        while let Some(number) = from {
            self.stop_gate(number, cause);
            from = next_behind(&self.gates, number);
        }
    }

    /// What it makes of the link of this number, which leaves its stream.
    fn stop_at<N: Notes>(&mut self, number: u64, cause: Cause, notes: &mut N)
        ensures tells { StopsAt cause (get self.old.relays number) number self.old (N.told notes.old) self.new (N.told notes.new) }
        ensures stirs { Stirs self.old self.new }
    {
        let Some(relay) = self.relays.at(number) else {
            return;
        };
        let begun = take_its_mail(&mut self.gates, relay.stream());
        let made = relay.stopped(cause, begun);
        self.touch(number);
        tell(made, notes);
    }

    /// What it makes of all of them, behind the links to gateways.
    fn stop_links<N: Notes>(&mut self, cause: Cause, notes: &mut N)
        ensures stops { StopsLinks cause self.old (N.told notes.old) self.new (N.told notes.new) }
        ensures stirs { Stirs self.old self.new }
    {
        let mut from = self.relays.first_from(0);
        while let Some(number) = from {
            self.stop_at(number, cause, notes);
            from = next_behind(&self.relays, number);
        }
    }

    /// A response was applied, which made this of what is held: each link that is no longer admitted ends. No other one is
    /// touched.
    pub fn applied<N: Notes>(&mut self, held: &Held, notes: &mut N)
        ensures meets { Updates held.now self.old (N.told notes.old) self.new (N.told notes.new) }
        ensures stirs { Stirs self.old self.new }
    {
        let mut from = self.relays.first_from(0);
        while let Some(number) = from {
            self.judge_at(number, held, notes);
            from = next_behind(&self.relays, number);
        }
    }

    /// The run ends for this cause: each link does.
    pub fn stopped<N: Notes>(&mut self, cause: Cause, notes: &mut N)
        ensures meets { AllStop cause self.old (N.told notes.old) self.new (N.told notes.new) }
        ensures stirs { Stirs self.old self.new }
    {
        self.stop_gates(cause);
        self.stop_links(cause, notes);
        self.routes.forget(self.alloc);
    }
}
