//! What comes and goes on its upstream.

ghost use Rattle.std.specs.Prelude.{◌≡◌, ◌≤◌, ℕ, length, None, Some};
ghost use Rattle.hb_base.specs.declared.door.Why.{Why as the_why};
ghost use Rattle.hb_base.specs.declared.target.Target.{Target as the_target};
ghost use Rattle.hb_world.specs.declared.entry.Entry.TheVariants as e;
ghost use Rattle.hb_captured.specs.Calm.{up_wants, up_output};
ghost use Rattle.hb_relay.specs.Shows.{captured_of};
ghost use Rattle.hb_relay.specs.Answering.{routing_of};
ghost use Rattle.hb_relay.specs.Calls.{UpEnters, UpEntersStill, UpGoes};

use crate::relay::Relay;
use crate::routes::Routes;
use hb_base::{Cause, Note};

impl Relay {
    /// The dial for it gave this link.
    pub fn dialled(&mut self, link: u64)
        ensures { (to : the_target) (why : the_why) → UpEntersStill (e.Dialled link to why) self.old self.new None }
    {
        self.dial(link);
    }

    /// Its upstream is open.
    pub fn up_opened(&mut self) -> Note
        ensures { (u : ℕ) → UpEntersStill (e.Opened u) self.old self.new (Some result) }
    {
        self.open();
        self.verdict_note(200)
    }

    /// These bytes came of its upstream.
    pub fn up_bytes(&mut self, b: &[u8])
        requires { length b.now ≤ up_wants (captured_of self.old) }
        ensures { (u : ℕ) → UpEntersStill (e.Came u b.now) self.old self.new None }
    {
        self.ways.push_down(b);
    }

    /// The first `n` bytes that waited were written to its upstream. The note of its end, `None` where it isn't done.
    pub fn up_wrote(&mut self, n: usize, routes: &mut Routes) -> Option<Note>
        requires { n ≤ length (up_output (captured_of self.old)) }
        ensures { UpGoes n self.old (routing_of routes.old) self.new (routing_of routes.new) result }
    {
        self.take_up(n);
        self.settle(routes)
    }

    /// The dial for it failed. The note of that, `None` where no dial was due.
    pub fn dial_failed(&mut self, routes: &mut Routes) -> Option<Note>
        ensures { (to : the_target) (why : the_why)
            → UpEnters (e.DialFailed to why) self.old (routing_of routes.old) self.new (routing_of routes.new) result }
    {
        self.leave_for(Cause::UpFault, 0, routes)
    }

    /// Its upstream sends no more. The note of its end, `None` where it isn't done.
    pub fn up_ended(&mut self, routes: &mut Routes) -> Option<Note>
        ensures { (u : ℕ) → UpEnters (e.Ended u) self.old (routing_of routes.old) self.new (routing_of routes.new) result }
    {
        self.up_hang_up();
        self.settle(routes)
    }

    /// Its upstream failed to open, or a call on it failed. The note of that, `None` where the link had ended.
    pub fn up_broke(&mut self, routes: &mut Routes) -> Option<Note>
        ensures { (u : ℕ) → UpEnters (e.Broke u) self.old (routing_of routes.old) self.new (routing_of routes.new) result }
    {
        self.leave_for(Cause::UpFault, 0, routes)
    }
}
