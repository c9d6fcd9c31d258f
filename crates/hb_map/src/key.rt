//! The numbers that values stand under.

/// An unsigned number of any width up to 64 bits.
pub trait Key: Copy {
    ghost use Rattle.std.specs.Prelude.{◌≡◌, ℕ};

    /// The number that it is.
    ghost number: { Self → ℕ };

    /// The number, in 64 bits.
    fn to_u64(self) -> u64
        ensures { result ≡ number self };
}

impl Key for u32 {
    ghost number = { λ n. n };

    fn to_u64(self) -> u64 {
        u64::from(self)
    }
}

impl Key for u64 {
    ghost number = { λ n. n };

    fn to_u64(self) -> u64 {
        self
    }
}
