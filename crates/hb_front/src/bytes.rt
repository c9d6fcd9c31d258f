//! The bytes of a header that isn't whole.

ghost use Rattle.std.specs.Prelude.{◌≡◌, ◌+◌, ◌-◌, ◌≤◌, [], ◌++◌, length, IfOk};
ghost use Rattle.hb_front.specs.Room.{longest_front};

use hb_base::NoMemory;
use std::alloc::Global;
use std::marker::Model;

/// The most bytes of a header: 16, and the 4,096 that its length may say.
const LONGEST: usize = 4112;

/// The bytes that came of a header that isn't whole. Contracts see them. Their room is taken when it is made.
#[derive(Drop)]
pub struct FrontBytes {
    bytes: Vec<u8>,
    came: usize,
}

impl Model for FrontBytes {
    ghost use Rattle.std.specs.Prelude.{◌≡◌, ◌≤◌, List, ℕ, length, take};
    ghost use Rattle.hb_front.specs.Room.{longest_front};

    ghost Value = { List ℕ };

    ghost view = { λ f. take f.came f.bytes.items };

    ghost invariant = { λ f. (length f.bytes.items ≡ longest_front) × (f.came ≤ longest_front) };
}

impl FrontBytes {
    /// No byte came.
    ///
    /// Errors: `NoMemory`.
    pub fn new(alloc: Global) -> Result<FrontBytes, NoMemory>
        ensures { IfOk result (λ f. f ≡ []) }
    {
        let bytes = Vec::from_elem(alloc, 0, LONGEST)?;
        Ok(FrontBytes { bytes, came: 0 })
    }

    /// How many bytes more there may be.
    pub fn room(&self) -> usize
        ensures { result + length self.now ≡ longest_front }
    {
        LONGEST - self.came
    }

    /// These bytes came.
    pub fn push(&mut self, b: &[u8])
        requires { length b.now ≤ longest_front - length self.old }
        ensures { self.new ≡ self.old ++ b.now }
    {
        let end = self.came + b.len();
        self.bytes[self.came..end].copy_from_slice(b);
        self.came = end;
    }

    /// The bytes that came.
    pub fn bytes(&self) -> &[u8]
        ensures { result.now ≡ self.now }
    {
        &self.bytes[..self.came]
    }

    /// None of them is kept.
    pub fn clear(&mut self)
        ensures { self.new ≡ [] }
    {
        self.came = 0;
    }
}
