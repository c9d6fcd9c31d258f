//! The call of the world that is due.

ghost use Rattle.std.specs.Prelude.{◌≡◌};
ghost use Rattle.hb_gate.specs.Calls.{Acts};
ghost use Rattle.hb_gate.specs.Observed.{says_last};

use crate::gate::Gate;
use crate::phase::Phase;
use hb_world::Act;

impl Gate {
    /// Its close, where it is due, which counts as done from now on. `None` where none is.
    pub fn next_act(&mut self) -> Option<Act>
        ensures { Acts result self.old self.new }
    {
        let cause = self.phase.close_due()?;
        self.phase = Phase::Closed;
        Some(Act::Close {
            link: self.number,
            cause,
        })
    }

    /// Whether one write goes before its close: a connection error was told, and what waits may be written once.
    pub fn last_words(&self) -> bool
        ensures { result ≡ says_last self.now }
    {
        match self.phase {
            Phase::Faulted(_) => !self.output().is_empty(),
            _ => false,
        }
    }
}
