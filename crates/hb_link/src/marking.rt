//! Tunnels that end, before their streams get what they get.

ghost use Rattle.std.specs.Prelude.{◌≡◌, ℕ};
ghost use Rattle.std.specs.FinMap.{get};
ghost use Rattle.hb_link.specs.Marking.{ChangesAt, EndsWith, ended_tunnel, ended_here, judged_tunnel, judged_here, down_ended_tunnel};

use crate::link::Link;
use crate::phase::Phase;
use hb_base::Cause;
use hb_held::Held;

impl Link {
    /// The tunnel on a stream ends for a cause.
    pub(crate) fn end_tunnel(&mut self, stream: u32, cause: Cause)
        ensures { ChangesAt (ended_tunnel cause) stream self.old self.new }
    {
        if let Some(tunnel) = self.tunnels.at(stream) {
            tunnel.end_for(cause);
        }
    }

    /// The upstream of a stream sends no more.
    pub(crate) fn end_down(&mut self, stream: u32)
        ensures { ChangesAt down_ended_tunnel stream self.old self.new }
    {
        if let Some(tunnel) = self.tunnels.at(stream) {
            tunnel.end_down();
        }
    }

    /// The tunnel on a stream ends where it is no longer admitted.
    fn judge_tunnel(&mut self, held: &Held, stream: u32)
        ensures { ChangesAt (judged_tunnel held.now self.old.peer) stream self.old self.new }
    {
        if let Some(tunnel) = self.tunnels.at(stream) {
            tunnel.judge(held, &self.peer);
        }
    }

    /// Each tunnel ends for a cause.
    pub(crate) fn end_tunnels(&mut self, cause: Cause)
        ensures each { (s : ℕ) → get self.new.tunnels s ≡ ended_here cause (get self.old.tunnels s) }
        ensures rest { self.new ≡ record self.old { tunnels = self.new.tunnels } }
    {
        let mut from = self.tunnels.first_from(0);
        while let Some(stream) = from {
            self.end_tunnel(stream, cause);
            from = self.tunnels.first_behind(stream);
        }
    }

    /// Each tunnel ends that is no longer admitted.
    pub(crate) fn judge_tunnels(&mut self, held: &Held)
        ensures each { (s : ℕ) → get self.new.tunnels s ≡ judged_here held.now self.old.peer (get self.old.tunnels s) }
        ensures rest { self.new ≡ record self.old { tunnels = self.new.tunnels } }
    {
        let mut from = self.tunnels.first_from(0);
        while let Some(stream) = from {
            self.judge_tunnel(held, stream);
            from = self.tunnels.first_behind(stream);
        }
    }

    /// It is in this phase from now on, and each tunnel ends for a cause.
    pub(crate) fn end_with(&mut self, phase: Phase, cause: Cause)
        ensures { EndsWith phase cause self.old self.new }
    {
        self.phase = phase;
        self.end_tunnels(cause);
    }
}
