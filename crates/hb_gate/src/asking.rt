//! A stream is asked for.

ghost use Rattle.std.specs.Prelude.{◌≡◌, true, IfOk};
ghost use Rattle.hb_gate.specs.Calls.{Asks};
ghost use Rattle.hb_gate.specs.Observed.{offers_on};

use crate::gate::Gate;
use crate::request::request;
use crate::stream::{Stage, Stream};
use hb_base::{NoMemory, Target};

impl Gate {
    /// Asks for a tunnel of a captured link, for an authority, on the next stream, and says which that is.
    ///
    /// Errors: `NoMemory`, behind which the run ends.
    pub fn ask(&mut self, link: u64, authority: Target) -> Result<u32, NoMemory>
        requires { offers_on self.old ≡ true }
        ensures { IfOk result (λ stream. Asks stream link authority self.old self.new) }
    {
        let headers = request(self.alloc, authority)?;
        let Ok(stream) = self.conn.open(&headers, false) else {
            return Err(NoMemory);
        };
        // A connection gives each number once, so no stream has it.
        self.streams.remove(stream);
        self.streams.add(
            stream,
            Stream {
                stage: Stage::Asked,
                link,
                mail: None,
                begun: 0,
            },
        )?;
        Ok(stream)
    }
}
