//! What is known of the link itself.

ghost use Rattle.std.specs.Prelude.{◌≡◌};
ghost use Rattle.hb_link.specs.Calls.{Loads, LastWords};
ghost use Rattle.hb_link.specs.Load.{places_on};
ghost use Rattle.hb_link.specs.Observed.{says_last};

use crate::link::Link;
use crate::phase::Phase;

impl Link {
    /// Whether what waits may be written before the acts that are due: a connection error was told.
    pub fn last_words(&self) -> bool
        ensures value { result ≡ says_last self.now }
        ensures machine { LastWords self.now result }
    {
        match self.phase {
            Phase::Faulted(_) => !self.conn.output().is_empty(),
            _ => false,
        }
    }

    /// How many of its tunnels take a place.
    pub fn load(&self) -> usize
        ensures value { result ≡ places_on self.now }
        ensures machine { Loads self.now result }
    {
        self.tunnels.counts().places
    }
}
