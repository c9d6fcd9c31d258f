//! The numbers of a packed field.

ghost use Rattle.std.specs.Prelude.{◌≡◌, ◌+◌, ◌^◌, ◌<◌, length, IfOk, IfNone, OnErr};
ghost use Rattle.hb_wire.specs.Field.{next_number_in};
ghost use Rattle.hb_wire.specs.Seen.{number_answer};

use crate::cursor::Cursor;
use crate::fault::WireFault;
use std::marker::Model;

/// A cursor over the numbers of a packed field ("Packed Repeated Fields").
#[derive(Drop)]
pub struct Packed<'a> {
    cursor: Cursor<'a>,
}

impl<'a> Model for Packed<'a> {
    ghost use Rattle.std.specs.Prelude.{◌≡◌, ◌+◌, ◌^◌, ◌<◌, length, refl};
    ghost use Rattle.hb_wire.specs.Field.{Unread};

    ghost Value = { Unread };

    ghost view = { λ p. record { at = p.cursor.at; left = p.cursor.left.now } };
}

impl<'a> Packed<'a> {
    /// The varints of these bytes, which stand at place `at` of a larger message: places are counted in that one.
    pub fn within(bytes: &'a [u8], at: usize) -> Packed<'a>
        requires { at + length bytes.now < 2 ^ 64 }
        ensures { result ≡ record { at = at; left = bytes.now } }
    {
        Packed {
            cursor: Cursor { at, left: bytes },
        }
    }

    /// The next number (Protocol Buffers encoding guide, "Packed Repeated Fields"); `None` at the end of the bytes.
    ///
    /// Errors: `Truncated` or `LongVarint` of the number in front, and where. Every later call answers the same
    /// fault.
    pub fn next_number(&mut self) -> Result<Option<u64>, WireFault>
        ensures answer { number_answer result self.new ≡ next_number_in self.old }
        ensures end { IfOk result (λ n. IfNone n (self.new ≡ self.old)) }
        ensures fault { OnErr result (self.new ≡ self.old) }
    {
        if self.cursor.left.is_empty() {
            return Ok(None);
        }
        let (n, rest) = self.cursor.varint()?;
        self.cursor = rest;
        Ok(Some(n))
    }
}
