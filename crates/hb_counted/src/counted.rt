//! Values under numbers that are counted by their classes.

ghost use Rattle.std.specs.Prelude.{◌≡◌, ℕ, ◌+◌, ◌<◌, ◌^◌, None, IsSome, OnOk, OnErr, IfSome, IfNone};
ghost use Rattle.std.specs.Option.{option_copied};
ghost use Rattle.std.specs.Borrow.{sem};
ghost use Rattle.std.specs.FinMap as map;
ghost use Rattle.hb_map.specs.Keyed.{IsFirstFrom};
ghost use Rattle.hb_counted.specs.Classes.{classes_in, counts_of};
ghost use Rattle.hb_counted.specs.Lending.{LendsCounted};
ghost use Rattle.hb_counted.specs.Kept.{IsKept};
ghost use Rattle.hb_counted.specs.Starts.{AreStarts};

use crate::classes::{Classed, Classes};
use crate::counts::Counts;
use crate::starts::Starts;
use hb_base::NoMemory;
use hb_slots::Slots;
use std::alloc::Global;
use std::marker::Model;

/// The counts and starts, for which one value counts as it was when it was lent.
#[derive(Clone, Copy)]
pub(crate) struct Tally {
    pub counts: Counts,
    pub starts: Starts,
    /// The number that was lent last, and the classes that its value was in before.
    pub lent: u32,
    pub was: Classes,
}

/// Values under numbers, one at most under each, and how many are in each class. Contracts see the finite map from the numbers to the
/// values. One that is lent may change its classes, so it stays counted for those that it had until another one is lent.
#[derive(Drop)]
pub struct Counted<T: Classed> {
    slots: Slots<T>,
    tally: Tally,
}

impl<T: Classed> Model for Counted<T> {
    ghost use Rattle.std.specs.FinMap.{FinMap, code};
    ghost use Rattle.std.specs.Coded.{coded_ℕ};
    ghost use Rattle.std.specs.Ordering.{nat_cmp};
    ghost use Rattle.hb_counted.specs.Kept.{IsKept};

    ghost Value = { FinMap nat_cmp T };

    ghost coded = { code coded_ℕ T.code };

    ghost view = { λ s. s.slots };

    ghost invariant = { λ s. IsKept T.classes_of s.tally s.slots };
}

/// The classes of the value under a number, where one stands there.
fn classes_at<T: Classed>(slots: &Slots<T>, number: u32) -> Classes
    ensures { result ≡ classes_in T.classes_of (map.get slots.now number) }
{
    match slots.get(number) {
        Some(item) => item.classes(),
        None => Classes::none(),
    }
}

/// How many values are in each class now, and from which numbers on they may be.
fn standing<T: Classed>(slots: &Slots<T>, tally: Tally) -> (Counts, Starts)
    requires { IsKept T.classes_of tally slots.now }
    ensures counts { result.0 ≡ counts_of T.classes_of slots.now }
    ensures starts { AreStarts result.1 (λ n. classes_in T.classes_of (map.get slots.now n)) }
{
    let is = classes_at(slots, tally.lent);
    let counts = tally.counts.moved(tally.was, is);
    (counts, tally.starts.lowered(counts, is, tally.lent))
}

/// The tally where this number is lent next.
fn turned<T: Classed>(slots: &Slots<T>, tally: Tally, number: u32) -> Tally
    requires { IsKept T.classes_of tally slots.now }
    ensures kept { IsKept T.classes_of result slots.now }
    ensures lent { result.lent ≡ number }
{
    if tally.lent == number {
        return tally;
    }
    let (counts, starts) = standing(slots, tally);
    Tally {
        counts,
        starts,
        lent: number,
        was: classes_at(slots, number),
    }
}

impl<T: Classed> Counted<T> {
    /// None, which takes no memory.
    pub fn new(alloc: Global) -> Counted<T>
        ensures { result ≡ map.empty }
    {
        Counted {
            slots: Slots::new(alloc),
            tally: Tally {
                counts: Counts::none(),
                starts: Starts::none(),
                lent: 0,
                was: Classes::none(),
            },
        }
    }

    /// How many values are in each class.
    pub fn counts(&self) -> Counts
        ensures value { result ≡ counts_of T.classes_of self.now }
        ensures numbers { (n : ℕ) → IsSome (map.get self.now n) → n < 2 ^ 32 }
    {
        standing(&self.slots, self.tally).0
    }

    /// From which numbers on values may be in a class.
    pub fn starts(&self) -> Starts
        ensures { AreStarts result (λ n. classes_in T.classes_of (map.get self.now n)) }
    {
        standing(&self.slots, self.tally).1
    }

    /// The value under a number. `None` where none stands there.
    pub fn get(&self, number: u32) -> Option<&T>
        ensures { option_copied result ≡ map.get self.now number }
    {
        self.slots.get(number)
    }

    /// The value under a number, to be changed. `None` where none stands there.
    pub fn at(&mut self, number: u32) -> Option<&mut T>
        ensures* after { sem 𝓛 (LendsCounted T.row T.Classed self.entry number result) }
        ensures value { IfSome result (λ item. map.get self.old number ≡ Some item.now) }
        ensures none { IfNone result (map.get self.old number ≡ None) }
    {
        self.tally = turned(&self.slots, self.tally, number);
        self.slots.at(number)
    }

    /// The least number from `number` on that has a value. `None` where there is none.
    pub fn first_from(&self, number: u32) -> Option<u32>
        ensures first { IsFirstFrom self.now number result }
        ensures numbers { (n : ℕ) → IsSome (map.get self.now n) → n < 2 ^ 32 }
    {
        self.slots.first_from(number)
    }

    /// The least number behind this one that has a value. `None` where there is none.
    pub fn first_behind(&self, number: u32) -> Option<u32>
        ensures { IsFirstFrom self.now (number + 1) result }
    {
        self.slots.first_behind(number)
    }
}

impl<T: Classed + Drop> Counted<T> {
    /// Puts a value under a number that has none.
    ///
    /// Errors: `NoMemory`, and then nothing changes and the value is dropped.
    pub fn add(&mut self, number: u32, item: T) -> Result<(), NoMemory>
        requires new { map.get self.old number ≡ None }
        ensures ok { OnOk result (self.new ≡ map.insert self.old number item) }
        ensures err { OnErr result (self.new ≡ self.old) }
    {
        self.tally = turned(&self.slots, self.tally, number);
        self.slots.add(number, item)
    }

    /// Takes the value under a number out. `None` where none stands there.
    pub fn remove(&mut self, number: u32) -> Option<T>
        ensures value { result ≡ map.get self.old number }
        ensures rest { self.new ≡ map.remove self.old number }
    {
        self.tally = turned(&self.slots, self.tally, number);
        self.slots.remove(number)
    }
}
