//! What is known of the links.

ghost use Rattle.std.specs.Prelude.{◌≡◌};
ghost use Rattle.std.specs.FinMap.{get};
ghost use Rattle.hb_tunnel.specs.Way.{IsFront};
ghost use Rattle.hb_links.specs.Calls.{Wants, Holds, LastWords, wants_of, held_of, last_at};

use crate::links::Links;

impl Links {
    /// How many bytes may be read of the link of this number now.
    pub fn wants(&self, number: u64) -> usize
        ensures value { result ≡ wants_of self.now number }
        ensures machine { Wants self.now number result }
    {
        match self.ups.get(number) {
            Some(place) => match self.links.get(place.link) {
                Some(link) => link.up_wants(place.stream),
                None => 0,
            },
            None => match self.links.get(number) {
                Some(link) => link.wants(),
                None => 0,
            },
        }
    }

    /// A front part of the bytes that wait to be written to it; none only where none waits.
    pub fn output(&self, number: u64) -> &[u8]
        ensures front { IsFront result.now (held_of self.now number) }
        ensures machine { Holds self.now number (held_of self.now number) }
    {
        match self.ups.get(number) {
            Some(place) => match self.links.get(place.link) {
                Some(link) => link.up_output(place.stream),
                None => b"",
            },
            None => match self.links.get(number) {
                Some(link) => link.output(),
                None => b"",
            },
        }
    }

    /// Whether what waits on it may be written before the acts that are due: a connection error was told on it.
    pub fn last_words(&self, number: u64) -> bool
        ensures value { result ≡ last_at (get self.now.links number) }
        ensures machine { LastWords self.now number result }
    {
        match self.links.get(number) {
            Some(link) => link.last_words(),
            None => false,
        }
    }
}
