//! The numbers by which values are found.

use hb_base::{List, NoMemory};
use std::alloc::Global;

/// A value that has numbers, by which an index finds it.
pub trait Numbered {
    ghost use Rattle.std.specs.Prelude.{◌≡◌, ℕ, IfOk, List as list};

    /// The numbers that it has.
    ghost numbers: { Self → list ℕ };

    /// A list of them.
    ///
    /// Errors: `NoMemory`.
    fn list_numbers(&self, alloc: Global) -> Result<List<u128>, NoMemory>
        ensures { IfOk result (λ l. l ≡ numbers self.now) };
}
