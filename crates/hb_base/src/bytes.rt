//! Owned bytes.

ghost use Rattle.std.specs.Prelude.{◌≡◌, IfOk};

use crate::or::NoMemory;
use crate::place::Place;
use std::alloc::Global;
use std::marker::Model;

/// Owned bytes, of any content; up to 23 take no memory. Contracts see them as a list of numbers below 256.
#[derive(Drop)]
pub struct Bytes {
    place: Place,
}

impl Model for Bytes {
    ghost use Rattle.std.specs.Prelude.{List, ℕ};
    ghost use Rattle.hb_base.specs.Place.{bytes_at};

    ghost Value = { List ℕ };

    ghost view = { λ b. bytes_at b.place };
}

impl Bytes {
    /// A copy of these bytes.
    ///
    /// Errors: `NoMemory`.
    pub fn of(alloc: Global, b: &[u8]) -> Result<Bytes, NoMemory>
        ensures { IfOk result (λ r. r ≡ b.now) }
    {
        let place = Place::of(alloc, b)?;
        Ok(Bytes { place })
    }

    /// These bytes, taken over: their memory is kept, without a copy, where they are more than 23.
    pub fn from_vec(items: Vec<u8>) -> Bytes
        ensures { result ≡ items.items }
    {
        let place = Place::from_vec(items);
        Bytes { place }
    }

    /// The bytes, in order.
    pub fn as_slice(&self) -> &[u8]
        ensures { result.now ≡ self.now }
    {
        self.place.as_slice()
    }

    /// A copy of these bytes.
    ///
    /// Errors: `NoMemory`.
    pub fn copy(&self, alloc: Global) -> Result<Bytes, NoMemory>
        ensures { IfOk result (λ r. r ≡ self.now) }
    {
        Bytes::of(alloc, self.as_slice())
    }
}

const _: () = prove!(size_of::<Bytes>() == 32);
