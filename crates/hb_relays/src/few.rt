//! Few numbers, without memory of their own.

ghost use Rattle.std.specs.Prelude.{◌≡◌, ◌==◌, ◌<◌, ◌++◌, ◌∷◌, [], length, nat_lt, IfNone, IfSome};
ghost use Rattle.std.specs.List.{list_any};

use arrayvec::ArrayVec;
use std::marker::Model;

/// At most 32 numbers. Contracts see them as a list.
#[derive(Drop)]
pub(crate) struct Few {
    numbers: ArrayVec<u64, 32>,
}

impl Model for Few {
    ghost use Rattle.std.specs.Prelude.{List, ℕ, ◌≤◌, length};

    ghost Value = { List ℕ };

    ghost view = { λ f. f.numbers.items };

    ghost invariant = { λ f. length f.numbers.items ≤ 32 };
}

impl Few {
    /// No number.
    pub fn new() -> Few
        ensures { result ≡ [] }
    {
        Few {
            numbers: ArrayVec::new(),
        }
    }

    /// None is listed.
    pub fn is_empty(&self) -> bool
        ensures { result ≡ (length self.now == 0) }
    {
        self.numbers.is_empty()
    }

    /// One more can be listed.
    pub fn has_room(&self) -> bool
        ensures { result ≡ nat_lt (length self.now) 32 }
    {
        !self.numbers.is_full()
    }

    /// This one is listed.
    pub fn holds(&self, number: u64) -> bool
        ensures { result ≡ list_any (λ n. n == number) self.now }
    {
        self.numbers
            .as_slice()
            .iter()
            .any(|listed| *listed == number)
    }

    /// Lists one more, behind the others.
    pub fn push(&mut self, number: u64)
        requires { length self.old < 32 }
        ensures { self.new ≡ self.old ++ number ∷ [] }
    {
        self.numbers.push(number);
    }

    /// Takes the first one out. `None` where none is listed.
    pub fn take_first(&mut self) -> Option<u64>
        ensures first { IfSome result (λ n. self.old ≡ n ∷ self.new) }
        ensures none { IfNone result ((self.old ≡ []) × (self.new ≡ [])) }
    {
        if self.numbers.is_empty() {
            return None;
        }
        Some(self.numbers.remove(0))
    }
}
