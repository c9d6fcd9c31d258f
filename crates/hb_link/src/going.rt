//! What the bytes that go on the link count for.

ghost use Rattle.std.specs.Prelude.{◌≡◌};
ghost use Rattle.hb_conn.specs.Observed.{data_unbegun};
ghost use Rattle.hb_link.specs.Going.{begun_counted};

use crate::link::Link;

impl Link {
    /// The DATA of which the first octet goes next counts for its tunnel: where such DATA waits it stands in front.
    pub(crate) fn count_begun(&mut self)
        ensures { self.new ≡ record self.old { tunnels = begun_counted (data_unbegun self.old.conn) self.old.tunnels } }
    {
        let Some(first) = self.conn.unbegun() else {
            return;
        };
        let Some(tunnel) = self.tunnels.at(first.stream) else {
            return;
        };
        tunnel.went_down = tunnel.went_down.saturating_add(first.size as u64);
    }
}
