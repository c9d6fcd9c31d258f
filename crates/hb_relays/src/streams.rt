//! What is put on the streams of links, and given back to their windows.

ghost use Rattle.std.specs.Prelude.{◌≡◌, ◌<◌, ◌≤◌, length, IfSome};
ghost use Rattle.hb_gate.specs.Calls.{Puts};
ghost use Rattle.hb_relay.specs.Answering.{routing_of};
ghost use Rattle.hb_relay.specs.Shows.{captured_of};
ghost use Rattle.hb_relays.specs.Leaving.{GivesUp};
ghost use Rattle.hb_relays.specs.Pumping.{any, GivenBack, IsPut, IsFinished, MayPut, Turns, Rests, RestsOn, RestsAt};
ghost use Rattle.hb_relays.specs.Pumping.{Pumps, PumpsGate};
ghost use Rattle.hb_relays.specs.Pumping.{LivesAt, PumpsFrom, PumpsOne};
ghost use Rattle.hb_relays.specs.Stirring.{Stirs};

use crate::relays::Relays;
use crate::telling::tell;
use hb_base::Note;
use hb_gate::Gate;
use hb_link::Notes;
use hb_relay::{Relay, Routes};

/// What was written to a link that lives on a stream is given back to the stream's window.
fn give_back(relay: &mut Relay, gate: &mut Gate, stream: u32)
    ensures { Turns stream any GivenBack relay.old gate.old relay.new gate.new }
{
    let owed = relay.owed();
    if owed == 0 {
        return;
    }
    gate.credit(stream, owed);
    relay.credited();
}

/// As many of the bytes that wait as may be are put in a frame. How many.
fn put_waiting(relay: &Relay, gate: &mut Gate, stream: u32) -> usize
    ensures puts { Puts stream (captured_of relay.now).ways.up.held result gate.old gate.new }
    ensures most { result ≤ length (captured_of relay.now).ways.up.held }
{
    gate.put(stream, relay.waiting())
}

/// They are taken from those that wait.
fn put(relay: &mut Relay, gate: &mut Gate, stream: u32)
    ensures { Turns stream GivenBack IsPut relay.old gate.old relay.new gate.new }
{
    let count = put_waiting(relay, gate, stream);
    if count == 0 {
        return;
    }
    relay.put(count);
}

/// So is END_STREAM, where it may be.
fn finish(relay: &mut Relay, gate: &mut Gate, stream: u32)
    ensures { Turns stream IsPut IsFinished relay.old gate.old relay.new gate.new }
{
    if !relay.may_finish() {
        return;
    }
    if !gate.may_finish(stream) {
        return;
    }
    gate.finish(stream);
    relay.finished();
}

/// It is done where both sides ended and all went through. The note of that, `None` where it isn't.
fn complete(relay: &mut Relay, gate: &mut Gate, stream: u32, routes: &mut Routes) -> Option<Note>
    ensures { Rests stream IsFinished relay.old gate.old (routing_of routes.old) relay.new gate.new (routing_of routes.new) result }
{
    if !relay.may_complete() {
        return None;
    }
    if !gate.is_through(stream) {
        return None;
    }
    let begun = gate.leave(stream);
    Some(relay.complete(begun, routes))
}

/// Bytes of a link may be put, as far as is seen without a look at its stream.
fn may_put(relay: &Relay, gate: &Gate) -> bool
    ensures { MayPut relay.now gate.now result }
{
    if !relay.has_waiting() {
        return false;
    }
    gate.may_put()
}

/// Nothing is owed of a link, and nothing of it can be put or is done whatever its stream allows: nothing would come of pumping it.
fn rests(relay: &Relay, gate: &Gate) -> bool
    ensures { RestsOn relay.now gate.now result }
{
    if relay.owed() != 0 {
        return false;
    }
    if may_put(relay, gate) {
        return false;
    }
    !relay.may_finish() && !relay.may_complete()
}

/// What may be put of a link on its stream is, what is owed is given back, and it is done where both sides ended and all went through. The
/// note of that, `None` where it isn't.
fn pump(relay: &mut Relay, gate: &mut Gate, stream: u32, routes: &mut Routes) -> Option<Note>
    ensures { Rests stream any relay.old gate.old (routing_of routes.old) relay.new gate.new (routing_of routes.new) result }
{
    give_back(relay, gate, stream);
    put(relay, gate, stream);
    finish(relay, gate, stream);
    complete(relay, gate, stream, routes)
}

impl Relays {
    /// The stream on which the link of this number lives, and the link to a gateway that this is of. `None` where it doesn't on one.
    fn stream_of(&self, link: u64) -> Option<(u64, u32)>
        ensures { LivesAt link self.now result }
    {
        let relay = self.relays.get(link)?;
        if !relay.lives_on_stream() {
            return None;
        }
        relay.stream()
    }

    /// The link of this number rests on the link to a gateway of that number, as far as is seen without a look at its stream.
    fn rests_at(&self, link: u64, number: u64) -> bool
        ensures { RestsAt link number self.now result }
    {
        let Some(relay) = self.relays.get(link) else {
            return false;
        };
        let Some(gate) = self.gates.get(number) else {
            return false;
        };
        rests(relay, gate)
    }

    /// What may be put of the link of this number on its stream is. A link that rests isn't touched.
    pub(crate) fn pump_link<N: Notes>(&mut self, link: u64, notes: &mut N)
        ensures pumps { Pumps link self.old (N.told notes.old) self.new (N.told notes.new) }
        ensures stirs { Stirs self.old self.new }
    {
        let Some((number, stream)) = self.stream_of(link) else {
            return;
        };
        if self.rests_at(link, number) {
            return;
        }
        let Some(gate) = self.gates.at(number) else {
            return;
        };
        let Some(relay) = self.relays.at(link) else {
            return;
        };
        let made = pump(relay, gate, stream, &mut self.routes);
        self.touch(link);
        self.touch_gate(number);
        tell(made, notes);
    }

    /// A link ended the tunnel on its stream: that is given up, and reset.
    pub(crate) fn give_up(&mut self, number: u64, stream: u32)
        ensures gives { GivesUp number stream self.old self.new }
        ensures stirs { Stirs self.old self.new }
    {
        let Some(gate) = self.gates.at(number) else {
            return;
        };
        gate.give_up(stream);
        if gate.carries() {
            gate.reset_ended();
        }
        self.touch_gate(number);
    }

    /// So it is for each stream of a link to a gateway: those behind the one that bytes were put on last go first.
    pub(crate) fn pump_gate<N: Notes>(&mut self, number: u64, notes: &mut N)
        ensures pumps { PumpsGate number self.old (N.told notes.old) self.new (N.told notes.new) }
        ensures stirs { Stirs self.old self.new }
    {
        let turn = self.first_in_turn(number);
        self.pump_from(number, turn, notes);
        self.pump_from(number, Some(0), notes);
    }

    /// The stream of a link to a gateway whose turn it is.
    fn first_in_turn(&self, number: u64) -> Option<u32> {
        self.gates.get(number)?.first_in_turn()
    }

    /// For each from this one on.
    fn pump_from<N: Notes>(&mut self, number: u64, first: Option<u32>, notes: &mut N)
        ensures pumps { PumpsFrom number first self.old (N.told notes.old) self.new (N.told notes.new) }
        ensures stirs { Stirs self.old self.new }
    {
        let mut from = first;
        while let Some(stream) = from {
            from = self.pump_one(number, stream, notes);
        }
    }

    /// For this one, and which stream is behind it.
    fn pump_one<N: Notes>(&mut self, number: u64, stream: u32, notes: &mut N) -> Option<u32>
        ensures pumps { PumpsOne number stream result self.old (N.told notes.old) self.new (N.told notes.new) }
        ensures rises { IfSome result (λ next. stream < next) }
        ensures stirs { Stirs self.old self.new }
    {
        let Some(gate) = self.gates.get(number) else {
            return None;
        };
        let next = gate.first_behind(stream);
        if let Some(link) = gate.link(stream) {
            self.pump_link(link, notes);
        }
        next
    }
}
