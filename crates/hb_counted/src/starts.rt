//! From which numbers on values may be in a class.

ghost use Rattle.std.specs.Prelude.{◌≡◌};
ghost use Rattle.hb_counted.specs.Starts.{lowered, all_lowered};

use crate::classes::Classes;
use crate::counts::Counts;

/// From which numbers on values may be in a class over which walks go: below, none is.
#[derive(Clone, Copy)]
pub struct Starts {
    pub due: u32,
    pub puts: u32,
}

/// The start of a class in which so many are now, and where one number alone may have changed, which now is in it or is not.
fn lowered(start: u32, count: usize, is: bool, number: u32) -> u32
    ensures { result ≡ lowered start count is number }
{
    if count == 0 {
        u32::MAX
    } else if is {
        start.min(number)
    } else {
        start
    }
}

impl Starts {
    /// No value is in any class.
    pub(crate) fn none() -> Starts
        ensures due { result.due ≡ 0 }
        ensures puts { result.puts ≡ 0 }
    {
        Starts { due: 0, puts: 0 }
    }

    /// The starts where so many are in each class now, and the value under one number, which alone may have changed, is in these.
    pub(crate) fn lowered(self, counts: Counts, is: Classes, number: u32) -> Starts
        ensures { result ≡ all_lowered self counts is number }
    {
        Starts {
            due: lowered(self.due, counts.due, is.due, number),
            puts: lowered(self.puts, counts.puts, is.puts, number),
        }
    }
}
