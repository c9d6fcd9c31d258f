//! A fault of one's own, or want of memory.

use std::alloc::{AllocError, AllocFailed};

/// Want of memory.
pub use std::alloc::AllocError as NoMemory;

/// Why a call that allocates gave up: a fault of its own kind, or want of memory.
#[derive(Clone, Copy, Drop)]
pub enum Or<E> {
    Fault(E),
    NoMemory,
}

impl<E> From<AllocError> for Or<E> {
    ghost use Rattle.std.specs.Prelude.{◌≡◌};
    ghost use Rattle.hb_base.specs.declared.or.Or.TheVariants.{NoMemory};

    ghost from_gives = { λ _ r. r ≡ NoMemory };

    fn from(_no_memory: AllocError) -> Or<E> {
        Or::NoMemory
    }
}

impl<E, T: Drop> From<AllocFailed<T>> for Or<E> {
    ghost use Rattle.std.specs.Prelude.{◌≡◌};
    ghost use Rattle.hb_base.specs.declared.or.Or.TheVariants.{NoMemory};

    ghost from_gives = { λ _ r. r ≡ NoMemory };

    fn from(_no_memory: AllocFailed<T>) -> Or<E> {
        Or::NoMemory
    }
}
