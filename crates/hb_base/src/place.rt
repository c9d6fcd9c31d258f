//! Where owned bytes are.

ghost use Rattle.std.specs.Prelude.{◌≡◌, IfOk};
ghost use Rattle.hb_base.specs.Place.{bytes_at};

use crate::or::NoMemory;
use crate::short::{SHORT, Short};
use std::alloc::Global;

/// Where the bytes of a value are: in it, which takes no memory, or in memory of their own.
pub(crate) enum Place {
    Short(Short),
    Long(Vec<u8>),
}

// Written out, so that a value that holds texts is dropped without a look into each.
impl Drop for Place {
    fn drop(self) {
        match self {
            Place::Short(_) | Place::Long(_) => {}
        }
    }
}

impl Place {
    /// A copy of these bytes.
    pub(crate) fn of(alloc: Global, b: &[u8]) -> Result<Place, NoMemory>
        ensures { IfOk result (λ r. bytes_at r ≡ b.now) }
    {
        if b.len() <= SHORT {
            return Ok(Place::Short(Short::of(b)));
        }
        Ok(Place::Long(Vec::from_slice(alloc, b)?))
    }

    /// These bytes, taken over. Up to 23 are copied, and their memory is given back.
    pub(crate) fn from_vec(items: Vec<u8>) -> Place
        ensures { bytes_at result ≡ items.items }
    {
        if items.len() <= SHORT {
            return Place::Short(Short::of(items.as_slice()));
        }
        Place::Long(items)
    }

    pub(crate) fn as_slice(&self) -> &[u8]
        ensures { result.now ≡ bytes_at self.now }
    {
        match self {
            Place::Short(bytes) => bytes.as_slice(),
            Place::Long(bytes) => bytes.as_slice(),
        }
    }
}
