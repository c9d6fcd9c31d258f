//! The calls of the world that are due.

ghost use Rattle.std.specs.Prelude.{◌≡◌, ◌<◌, None, Some, ℕ};
ghost use Rattle.hb_link.specs.Acting.{act_on, IsFirstDue};
ghost use Rattle.hb_link.specs.Acts.{Acts};
ghost use Rattle.hb_link.specs.Rousing.{Rouses};

use crate::link::Link;
use crate::phase::Phase;
use hb_world::Act;

impl Link {
    /// The act that is due of the tunnel on a stream.
    fn act_at(&self, stream: u32) -> Option<Act>
        ensures { result ≡ act_on self.now stream }
    {
        match self.tunnels.get(stream) {
            Some(tunnel) => tunnel.act(self.number, stream),
            None => None,
        }
    }

    /// The first stream of which an act is due, and that act.
    fn first_due(&self) -> Option<(u32, Act)>
        ensures { IsFirstDue self.now result }
    {
        if self.tunnels.counts().due == 0 {
            return None;
        }
        let mut from = self.tunnels.first_from(self.tunnels.starts().due);
        while let Some(stream) = from {
            if let Some(act) = self.act_at(stream) {
                return Some((stream, act));
            }
            from = self.tunnels.first_behind(stream);
        }
        None
    }

    /// The act that is due of the tunnel on a stream is made. A dial stays due.
    fn make(&mut self, stream: u32, act: Act)
        requires due { act_on self.old stream ≡ Some act }
        requires first { (s : ℕ) → s < stream → act_on self.old s ≡ None }
        ensures acts { Acts (Some act) self.old self.new }
        ensures number { self.new.number ≡ self.old.number }
        ensures rouses { Rouses self.old self.new }
    {
        match act {
            Act::Dial { .. } => {}
            Act::Shut { .. } => {
                if let Some(tunnel) = self.tunnels.at(stream) {
                    tunnel.shut = true;
                }
            }
            Act::Close { .. } => {
                self.tunnels.remove(stream);
            }
        }
    }

    /// Its own close, where it is to be closed and has no tunnel.
    fn own_close(&mut self) -> Option<Act>
        requires { (s : ℕ) → act_on self.old s ≡ None }
        ensures acts { Acts result self.old self.new }
        ensures number { self.new.number ≡ self.old.number }
        ensures rouses { Rouses self.old self.new }
    {
        if self.tunnels.first_from(0).is_some() {
            return None;
        }
        let Some(cause) = self.phase.close_due() else {
            return None;
        };
        self.phase = Phase::Closed;
        Some(Act::Close {
            link: self.number,
            cause,
        })
    }

    /// The call that is due, `None` where none is: first the closes of upstreams that are to be closed, dials and shuts, by rising
    /// stream; then the link's own close. A shut or a close counts as done from now on; a dial stays due until its answer is told.
    pub fn next_act(&mut self) -> Option<Act>
        ensures acts { Acts result self.old self.new }
        ensures number { self.new.number ≡ self.old.number }
        ensures rouses { Rouses self.old self.new }
    {
        match self.first_due() {
            Some((stream, act)) => {
                self.make(stream, act);
                Some(act)
            }
            None => self.own_close(),
        }
    }
}
