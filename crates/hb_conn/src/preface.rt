//! What a client sends first (RFC 9113 section 3.4).

ghost use Rattle.std.specs.Prelude.{◌≡◌, ◌≤◌, min, length};
ghost use Rattle.hb_conn.specs.Preface.{octets, start, fed, is_whole, taken_of};

use std::marker::Model;

/// The octets that a client's connection begins with.
pub(crate) const PREFACE: [u8; 24] = *b"PRI * HTTP/2.0\r\n\r\nSM\r\n\r\n";

/// The preface of a peer: how many of its octets came, and whether they are the right ones so far.
#[derive(Drop)]
pub(crate) struct Preface {
    came: usize,
    same: bool,
}

impl Model for Preface {
    ghost use Rattle.std.specs.Prelude.{◌≤◌};
    ghost use Rattle.hb_conn.specs.Preface.{Came};

    ghost Value = { Came };

    ghost view = { λ p. record { came = p.came; same = p.same } };

    ghost invariant = { λ p. p.came ≤ 24 };
}

impl Preface {
    /// Nothing came yet of as many octets as a client sends, or as a server does, which sends none.
    pub(crate) fn new(client: bool) -> Preface
        ensures { result ≡ start client }
    {
        Preface {
            came: if client { 24 } else { 0 },
            same: true,
        }
    }

    /// Compares the octets that belong to the preface, and says how many these are.
    pub(crate) fn feed(&mut self, bytes: &[u8]) -> usize
        ensures taken { result ≡ taken_of self.old bytes.now }
        ensures after { self.new ≡ fed self.old bytes.now }
    {
        let n = bytes.len().min(PREFACE.len() - self.came);
        self.same = self.same && bytes[..n] == PREFACE[self.came..self.came + n];
        self.came += n;
        n
    }

    pub(crate) fn is_whole(&self) -> bool
        ensures { result ≡ is_whole self.now }
    {
        self.came == PREFACE.len()
    }

    /// The octets that came are those of a preface.
    pub(crate) fn is_same(&self) -> bool
        ensures { result ≡ self.now.same }
    {
        self.same
    }
}
