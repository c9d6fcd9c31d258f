//! What comes and goes on the link, and what others do to it.

ghost use Rattle.std.specs.Prelude.{◌≡◌, ◌≤◌, length, IfOk, IfNone};
ghost use Rattle.hb_world.specs.declared.entry.Entry.TheVariants as e;
ghost use Rattle.hb_captured.specs.Calm.{wants, output};
ghost use Rattle.hb_captured.specs.Captured.{judges};
ghost use Rattle.hb_relay.specs.Answering.{routing_of};
ghost use Rattle.hb_relay.specs.Calls.{Begins, TurnsAway, Enters, EntersLeaving, Goes, StopsLeaving, Takes, Updates};
ghost use Rattle.hb_relay.specs.Shows.{captured_of};

use crate::relay::Relay;
use crate::routes::Routes;
use crate::stage::Stage;
use hb_base::{Cause, Door, NoMemory, Note, Peer};
use hb_held::Held;
use hb_table::{Judged, judge};
use std::alloc::Global;

/// Whether peers are judged at this door.
fn judges(door: Door) -> bool
    ensures { result ≡ judges door }
{
    match door {
        Door::Outbound => false,
        _ => true,
    }
}

impl Relay {
    /// A link that was accepted at a door: its front header is to come.
    ///
    /// Errors: `NoMemory`; a link of which nothing is kept is to be closed for that cause.
    pub fn accepted(alloc: Global, door: Door, number: u64) -> Result<Relay, NoMemory>
        ensures begins { IfOk result (λ k. Begins door number k) }
        ensures number { IfOk result (λ k. k.number ≡ number) }
    {
        Relay::fresh(alloc, door, number, Stage::Fronting)
    }

    /// A link that was accepted at a door where as many are open as may be: it is to be closed for that cause.
    ///
    /// Errors: `NoMemory`, as of one that is taken in.
    pub fn turned_away(alloc: Global, door: Door, number: u64) -> Result<Relay, NoMemory>
        ensures turns { IfOk result (λ k. TurnsAway door number k) }
        ensures number { IfOk result (λ k. k.number ≡ number) }
    {
        Relay::fresh(alloc, door, number, Stage::Over(Cause::NoRoom))
    }

    /// These bytes came of it: of its front header, which gets its answer by what is held once it is whole, or such as go
    /// up.
    /// The note of a refusal, `None` where the link isn't refused.
    pub fn take_bytes(&mut self, held: &Held, routes: &mut Routes, b: &[u8]) -> Option<Note>
        requires { length b.now ≤ wants (captured_of self.old) }
        ensures { Takes held.now b.now self.old (routing_of routes.old) self.new (routing_of routes.new) result }
    {
        match self.stage {
            Stage::Fronting => self.take_front(held, routes, b),
            _ => {
                self.ways.push_up(b);
                None
            }
        }
    }

    /// The first `n` bytes of the output were written. The note of its end, `None` where it isn't done.
    pub fn wrote(&mut self, n: usize, routes: &mut Routes) -> Option<Note>
        requires { n ≤ length (output (captured_of self.old)) }
        ensures { Goes n self.old (routing_of routes.old) self.new (routing_of routes.new) result }
    {
        self.take_down(n);
        self.settle(routes)
    }

    /// Its peer sends no more. The note of its end, `None` where it isn't done, or its header wasn't whole.
    pub fn ended(&mut self, routes: &mut Routes) -> Option<Note>
        ensures { Enters (e.Ended self.old.number) self.old (routing_of routes.old) self.new (routing_of routes.new) result }
    {
        self.hang_up();
        self.settle(routes)
    }

    /// A call on it failed; so many bytes have begun to go on its stream, which it leaves. The note of its end, `None` where it didn't
    /// live.
    pub fn broke(&mut self, begun: u64, routes: &mut Routes) -> Option<Note>
        ensures { EntersLeaving begun (e.Broke self.old.number) self.old (routing_of routes.old) self.new (routing_of routes.new) result }
    {
        self.leave_for(Cause::PeerGone, begun, routes)
    }

    /// A response was applied, which made this of what is held: it ends where peers are judged and its own is no longer admitted.
    /// The note of that, `None` where it goes on, or had ended.
    pub fn judge(&mut self, held: &Held) -> Option<Note>
        ensures updates { Updates held.now self.old self.new result }
        ensures same { IfNone result (captured_of self.new ≡ captured_of self.old) }
    {
        if !judges(self.ways.door()) {
            return None;
        }
        if let Stage::Fronting = self.stage {
            return None;
        }
        let peer = Peer {
            ip: self.source,
            identity: None,
        };
        match judge(held, &peer, self.target) {
            Judged::Admitted => None,
            _ => self.end_for(Cause::Revoked),
        }
    }

    /// The run ends for this cause; so many bytes have begun to go on its stream, which it leaves. The note of its end, `None` where it
    /// didn't live.
    pub fn stopped(&mut self, cause: Cause, begun: u64) -> Option<Note>
        ensures { StopsLeaving begun cause self.old self.new result }
    {
        self.leave_stream(begun);
        self.end_for(cause)
    }
}
