//! How a tunnel ends whose stream is no more.

ghost use Rattle.std.specs.Prelude.{◌≡◌};
ghost use Rattle.hb_link.specs.Looking.{EndsFor, IsMute, left_at};
ghost use Rattle.hb_link.specs.Rousing.{Rouses};
ghost use Rattle.hb_link.specs.Settling.{MayLook, AlwaysSettles};

use crate::link::Link;
use crate::notes::Notes;
use crate::tunnel::{Stage, Tunnel};
use hb_base::Cause;
use hb_counted::Counted;

/// The upstream of the tunnel on a stream is to be closed for this cause, where it has one; else nothing is left of the tunnel.
fn leave(tunnels: &mut Counted<Tunnel>, stream: u32, cause: Cause, up: u64)
    ensures { tunnels.new ≡ left_at stream cause up tunnels.old }
{
    if up == 0 {
        tunnels.remove(stream);
    } else if let Some(tunnel) = tunnels.at(stream) {
        tunnel.stage = Stage::Over(cause);
    }
}

impl Link {
    /// The tunnel on a stream ends for a cause for which its stream gets nothing.
    pub(crate) fn end_alone<N: Notes>(&mut self, stream: u32, cause: Cause, notes: &mut N)
        requires { IsMute cause }
        ensures settles { AlwaysSettles (EndsFor stream cause) MayLook self.old (N.told notes.old) self.new (N.told notes.new) }
        ensures conn { self.new.conn ≡ self.old.conn }
        ensures rouses { Rouses self.old self.new }
    {
        let Some(tunnel) = self.tunnels.get(stream) else {
            return;
        };
        let up = tunnel.up;
        match tunnel.stage {
            Stage::Due | Stage::Opening => leave(&mut self.tunnels, stream, cause, up),
            Stage::Live => {
                notes.end(self.number, stream, cause, tunnel.went_up, tunnel.went_down);
                leave(&mut self.tunnels, stream, cause, up);
            }
            _ => {}
        }
    }
}
