//! The calls of the world that are due.

ghost use Rattle.std.specs.Prelude.{◌≡◌};
ghost use Rattle.hb_captured.specs.Captured.{may_shut_up, may_shut, live, over};
ghost use Rattle.hb_relay.specs.Acts.{Acts};
ghost use Rattle.hb_relay.specs.Moving.{act_by, acted_by};
ghost use Rattle.hb_relay.specs.Shows.{captured_of, stage_of, Becomes};

use crate::relay::Relay;
use crate::stage::Stage;
use hb_base::Cause;
use hb_world::Act;

impl Relay {
    /// The upstream's sending side may be shut.
    fn may_shut_up(&self) -> bool
        ensures { result ≡ may_shut_up (captured_of self.now) }
    {
        self.gate == 0 && self.ways.up_done() && !self.up_shut
    }

    /// The link's sending side may be shut.
    fn may_shut(&self) -> bool
        ensures { result ≡ may_shut (captured_of self.now) }
    {
        self.ways.down_done() && !self.shut
    }

    /// The shut that is due while it lives, the upstream's first.
    fn next_shut(&mut self) -> Option<Act>
        ensures act { result ≡ act_by self.old.number live (captured_of self.old) }
        ensures after { Becomes (acted_by live) self.old self.new }
    {
        if self.may_shut_up() {
            self.up_shut = true;
            return Some(Act::Shut { link: self.up });
        }
        if self.may_shut() {
            self.shut = true;
            return Some(Act::Shut { link: self.number });
        }
        None
    }

    /// The close that is due for a cause, the upstream's first.
    fn next_close(&mut self, cause: Cause) -> Option<Act>
        ensures act { result ≡ act_by self.old.number (over cause) (captured_of self.old) }
        ensures after { Becomes (acted_by (over cause)) self.old self.new }
    {
        if self.up != 0 {
            let link = self.up;
            self.up = 0;
            return Some(Act::Close { link, cause });
        }
        if !self.closed {
            self.closed = true;
            return Some(Act::Close {
                link: self.number,
                cause,
            });
        }
        None
    }

    /// The call that is due, as a value, and what it makes of the link.
    fn act(&mut self) -> Option<Act>
        ensures act { result ≡ act_by self.old.number (stage_of self.old.stage) (captured_of self.old) }
        ensures after { Becomes (acted_by (stage_of self.old.stage)) self.old self.new }
    {
        match self.stage {
            Stage::Due => Some(Act::Dial {
                to: self.aim.address(),
                why: self.aim.why(self.ways.door(), self.number),
            }),
            Stage::Live => self.next_shut(),
            Stage::Over(cause) => self.next_close(cause),
            _ => None,
        }
    }

    /// The call that is due, `None` where none is: the dial of its address, the shut of its upstream or of itself, the close of its
    /// upstream and then its own. A shut or a close counts as done from now on; a dial stays due until its answer is told.
    pub fn next_act(&mut self) -> Option<Act>
        ensures acts { Acts result self.old self.new }
        ensures number { self.new.number ≡ self.old.number }
    {
        self.act()
    }
}
