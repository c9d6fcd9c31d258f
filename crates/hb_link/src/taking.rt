//! Bytes that come on the link, and bytes that went.

ghost use Rattle.std.specs.Prelude.{◌≤◌, length};
ghost use Rattle.hb_link.specs.Calls.{Takes, Goes};
ghost use Rattle.hb_link.specs.Observed.{wants_on, output_on};
ghost use Rattle.hb_link.specs.Rousing.{Rouses};

use crate::link::Link;
use crate::notes::Notes;
use crate::phase::Phase;
use hb_base::Cause;
use hb_held::Held;

impl Link {
    /// These bytes came, while the tunnels of other links took so many places of all that there may be. What they complete is looked at,
    /// and each request is answered by what is held. Where memory is wanting for a tunnel its request is answered with 500; where it is for
    /// a header block the link is to be closed for that cause.
    pub fn take_bytes<N: Notes>(
        &mut self,
        held: &Held,
        others: usize,
        limit: usize,
        b: &[u8],
        notes: &mut N,
    )
        requires { length b.now ≤ wants_on self.old }
        ensures takes { Takes held.now others limit b.now self.old (N.told notes.old) self.new (N.told notes.new) }
        ensures rouses { Rouses self.old self.new }
    {
        match self.phase {
            Phase::Fronting => self.take_front(b),
            Phase::Serving => {
                self.conn.take(b);
            }
            _ => return,
        }
        self.look_all(held, others, limit, notes);
        self.put_all(notes);
    }

    /// The first `n` bytes of the output were written. What may go behind them is put.
    pub fn wrote<N: Notes>(&mut self, n: usize, notes: &mut N)
        requires { n ≤ length (output_on self.old) }
        ensures goes { Goes n self.old (N.told notes.old) self.new (N.told notes.new) }
        ensures rouses { Rouses self.old self.new }
    {
        if n == 0 {
            return;
        }
        match self.phase {
            Phase::Serving => {
                self.count_begun();
                self.conn.wrote(n);
                self.settle(notes);
            }
            Phase::Faulted(code) => {
                self.phase = Phase::Closing(Cause::ConnFault(code));
            }
            _ => {}
        }
    }
}
