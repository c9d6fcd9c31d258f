//! What is known of the links.

ghost use Rattle.std.specs.Prelude.{◌≡◌};
ghost use Rattle.hb_tunnel.specs.Way.{IsFront};
ghost use Rattle.hb_relays.specs.Calls.{Has, Wants, Holds, LastWords, has_of, wants_of, held_of, last_at};

use crate::relays::Relays;

impl Relays {
    fn has_at(&self, number: u64) -> bool
        ensures { result ≡ has_of self.now number }
    {
        self.ups.get(number).is_some()
            || self.relays.get(number).is_some()
            || self.gates.get(number).is_some()
    }

    /// Whether this number is one of a link that is kept, or of an upstream of one.
    pub fn has(&self, number: u64) -> bool
        ensures value { result ≡ has_of self.now number }
        ensures machine { Has self.now number result }
    {
        self.has_at(number)
    }

    fn wants_at(&self, number: u64) -> usize
        ensures { result ≡ wants_of self.now number }
    {
        match self.ups.get(number) {
            Some(link) => match self.relays.get(*link) {
                Some(relay) => relay.up_wants(),
                None => 0,
            },
            None => match self.relays.get(number) {
                Some(relay) => relay.wants(),
                None => match self.gates.get(number) {
                    Some(gate) => gate.wants(),
                    None => 0,
                },
            },
        }
    }

    /// How many bytes may be read of the link of this number now.
    pub fn wants(&self, number: u64) -> usize
        ensures value { result ≡ wants_of self.now number }
        ensures machine { Wants self.now number result }
    {
        self.wants_at(number)
    }

    fn output_at(&self, number: u64) -> &[u8]
        ensures { IsFront result.now (held_of self.now number) }
    {
        match self.ups.get(number) {
            Some(link) => match self.relays.get(*link) {
                Some(relay) => relay.up_output(),
                None => b"",
            },
            None => match self.relays.get(number) {
                Some(relay) => relay.output(),
                None => match self.gates.get(number) {
                    Some(gate) => gate.output(),
                    None => b"",
                },
            },
        }
    }

    /// A front part of the bytes that wait to be written to it; none only where none waits.
    pub fn output(&self, number: u64) -> &[u8]
        ensures front { IsFront result.now (held_of self.now number) }
        ensures machine { Holds self.now number (held_of self.now number) }
    {
        self.output_at(number)
    }

    fn last_at(&self, number: u64) -> bool
        ensures { result ≡ last_at self.now number }
    {
        match self.gates.get(number) {
            Some(gate) => gate.last_words(),
            None => false,
        }
    }

    /// Whether one write on the link of this number goes before the acts that are due: a connection error was told of a link to a gateway.
    pub fn last_words(&self, number: u64) -> bool
        ensures value { result ≡ last_at self.now number }
        ensures machine { LastWords self.now number result }
    {
        self.last_at(number)
    }
}
