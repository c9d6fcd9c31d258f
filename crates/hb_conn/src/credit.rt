//! Octets of DATA that are used up (RFC 9113 section 6.9).

ghost use Rattle.std.specs.Prelude.{◌≡◌, ◌≤◌};
ghost use Rattle.hb_flow.specs.Flows.{creditable};
ghost use Rattle.hb_conn.specs.Credit.{credit};

use crate::machine::Core;

impl Core {
    pub(crate) fn credit(&mut self, stream: u32, n: u32)
        requires { n ≤ creditable self.old.flow stream }
        ensures { self.new ≡ credit self.old stream n }
    {
        self.flow.owe_stream(stream, n);
        if self.streams.sides(stream).peer {
            self.credit_stream(stream);
        }
    }
}
