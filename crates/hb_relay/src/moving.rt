//! The own steps of the calls.

ghost use Rattle.std.specs.Prelude.{◌≡◌, ◌≤◌, length};
ghost use Rattle.hb_world.specs.declared.entry.Entry.TheVariants as e;
ghost use Rattle.hb_captured.specs.Captured.{entered, up_entered, at_stage, live};
ghost use Rattle.hb_relay.specs.Answering.{routing_of};
ghost use Rattle.hb_relay.specs.Reaches.{rerouted};
ghost use Rattle.hb_relay.specs.Moving.{settled, note_by, took_up, took_down};
ghost use Rattle.hb_relay.specs.Shows.{captured_of, stage_of, Becomes};
ghost use Rattle.hb_base.specs.declared.door.Why.{Why as the_why};
ghost use Rattle.hb_base.specs.declared.target.Target.{Target as the_target};

use crate::relay::Relay;
use crate::routes::Routes;
use crate::stage::Stage;
use hb_base::{Cause, Note};

impl Relay {
    /// Where both sides ended, and all went through, it is done.
    pub(crate) fn settle(&mut self, routes: &mut Routes) -> Option<Note>
        ensures note { result ≡ note_by self.old.number (stage_of self.old.stage) (captured_of self.old) }
        ensures after { Becomes settled self.old self.new }
        ensures counts { routing_of routes.new ≡ rerouted (captured_of self.old) (captured_of self.new) (routing_of routes.old) }
    {
        match self.stage {
            Stage::Live if self.gate == 0 && self.ways.up_done() && self.ways.down_done() => {
                self.leave_for(Cause::Done, 0, routes)
            }
            _ => None,
        }
    }

    /// It sends no more: an unwhole header is at fault.
    pub(crate) fn hang_up(&mut self)
        ensures { Becomes (entered (e.Ended self.old.number)) self.old self.new }
    {
        self.ways.end_up();
        if let Stage::Fronting = self.stage {
            self.stage = Stage::Over(Cause::FrontFault(0));
        }
    }

    /// Its upstream sends no more.
    pub(crate) fn up_hang_up(&mut self)
        ensures { Becomes (up_entered (e.Ended self.old.up)) self.old self.new }
    {
        self.ways.end_down();
    }

    /// The first `n` bytes that waited were written to its upstream.
    pub(crate) fn take_up(&mut self, n: usize)
        requires { n ≤ length self.old.ways.ways.up.held }
        ensures { Becomes (took_up n) self.old self.new }
    {
        self.ways.took_up(n);
        self.went_up = self.went_up.saturating_add(n as u64);
    }

    /// The first `n` bytes that waited were written to it.
    pub(crate) fn take_down(&mut self, n: usize)
        requires { n ≤ length self.old.ways.ways.down.held }
        ensures { Becomes (took_down n) self.old self.new }
    {
        self.ways.took_down(n);
        if self.gate != 0 {
            self.owed = self.owed.saturating_add(n as u64);
        }
        self.went_down = self.went_down.saturating_add(n as u64);
    }

    /// Its upstream is open.
    pub(crate) fn open(&mut self)
        ensures { Becomes (λ x. at_stage live (up_entered (e.Opened self.old.up) x)) self.old self.new }
    {
        self.stage = Stage::Live;
        self.ways.open();
    }

    /// The dial of its destination gave this link.
    pub(crate) fn dial(&mut self, link: u64)
        ensures { (to : the_target) (why : the_why) → Becomes (up_entered (e.Dialled link to why)) self.old self.new }
    {
        self.stage = Stage::Opening;
        self.up = link;
    }
}
