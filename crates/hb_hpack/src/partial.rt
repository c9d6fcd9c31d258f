//! Bits between two whole things: two words of a text that is read, two bytes of one that is written.

ghost use Rattle.std.specs.Prelude.{◌≡◌, ◌+◌, ◌-◌, ◌*◌, ◌%◌, ◌^◌, ◌<◌, ◌≤◌};

/// Bits that are read and not yet taken as words: so many, the low ones of a number.
#[derive(Clone, Copy)]
pub struct Held {
    pub bits: u64,
    pub count: u64,
    ghost few: { count < 64 },
}

/// A word that stands in front of bits: its symbol, and how many bits it has.
#[derive(Clone, Copy)]
pub struct Found {
    pub symbol: u16,
    pub length: u64,
}

/// Bits that make no whole byte: so many, and the number that they make.
#[derive(Clone, Copy)]
pub struct Unfinished {
    pub byte: u8,
    pub count: u8,
    ghost short: { count < 8 },
    ghost below: { byte < 2 ^ count },
}

impl Held {
    /// No bits.
    pub fn new() -> Held
        ensures bits { result.bits ≡ 0 }
        ensures count { result.count ≡ 0 }
    {
        Held { bits: 0, count: 0 }
    }

    /// These bits, and a byte's behind them.
    pub fn with(self, byte: u8) -> Held
        requires { self.count < 56 }
        ensures bits { result.bits ≡ self.bits % 2 ^ 56 * 256 + byte }
        ensures count { result.count ≡ self.count + 8 }
    {
        Held {
            bits: self.bits % (1 << 56) * 256 + u64::from(byte),
            count: self.count + 8,
        }
    }

    /// What is behind so many bits.
    pub fn behind(self, length: u64) -> Held
        requires { length ≤ self.count }
        ensures bits { result.bits ≡ self.bits }
        ensures count { result.count ≡ self.count - length }
    {
        Held {
            bits: self.bits,
            count: self.count - length,
        }
    }

    /// The number that these bits make.
    pub fn number(self) -> u64
        ensures { result ≡ self.bits % 2 ^ self.count }
    {
        self.bits % (1 << self.count)
    }
}

impl Unfinished {
    /// No bits.
    pub fn new() -> Unfinished
        ensures byte { result.byte ≡ 0 }
        ensures count { result.count ≡ 0 }
    {
        Unfinished { byte: 0, count: 0 }
    }
}
