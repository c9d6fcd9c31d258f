//! The upstreams of a link's tunnels.

ghost use Rattle.std.specs.Prelude.{◌≡◌, ◌<◌, ◌^◌, ℕ, true, [], IfNone};
ghost use Rattle.hb_link.specs.Observed.{up_on, IsNextUp};
ghost use Rattle.hb_link.specs.Rousing.{Passes, Tells, roused_on};

use crate::link::Link;

impl Link {
    /// The number of the upstream of the tunnel on a stream, 0 where it has none.
    fn up_at(&self, stream: u32) -> u64
        ensures { result ≡ up_on self.now stream }
    {
        match self.tunnels.get(stream) {
            Some(tunnel) => tunnel.up,
            None => 0,
        }
    }

    /// The first stream from a number on whose tunnel has an upstream, and the number of that. `None` where there is none.
    fn next_up(&self, from: u32) -> Option<(u32, u64)>
        ensures next { IsNextUp self.now from result }
        ensures numbers { (s : ℕ) → 0 < up_on self.now s → s < 2 ^ 32 }
    {
        let mut at = self.tunnels.first_from(from);
        while let Some(stream) = at {
            let up = self.up_at(stream);
            if up != 0 {
                return Some((stream, up));
            }
            at = self.tunnels.first_behind(stream);
        }
        None
    }

    /// Tells the upstream of a stream that is kept by itself. `None` where none of them is left.
    fn next_of_few(&mut self) -> Option<u64>
        ensures passes { Passes result self.old self.new }
        ensures none { IfNone result (self.new.roused.few.items ≡ []) }
    {
        while let Some(stream) = self.roused.few.pop() {
            let up = self.up_at(stream);
            if up != 0 {
                return Some(up);
            }
        }
        None
    }

    /// Tells the next upstream of the streams from a number on. `None` where none is left.
    fn next_of_rest(&mut self) -> Option<u64>
        requires { self.old.roused.few.items ≡ [] }
        ensures { Tells result self.old self.new }
    {
        let from = self.roused.from?;
        self.roused.from = None;
        let (stream, up) = self.next_up(from)?;
        self.roused.from = stream.checked_add(1);
        Some(up)
    }

    /// The number of an upstream that is roused, which counts as told from now on. `None` where none is.
    pub fn next_roused(&mut self) -> Option<u64>
        ensures { Tells result self.old self.new }
    {
        match self.next_of_few() {
            Some(up) => Some(up),
            None => self.next_of_rest(),
        }
    }

    /// Each upstream is roused from now on.
    pub fn rouse_all(&mut self)
        ensures all { (s : ℕ) → roused_on self.new s ≡ true }
        ensures same { self.new ≡ record self.old { roused = self.new.roused } }
    {
        self.roused.add_all();
    }
}
