//! How many values are in each class.

ghost use Rattle.std.specs.Prelude.{◌≡◌};
ghost use Rattle.hb_counted.specs.Classes.{of_none, shift, moved, Allows, AllowsAll};

use crate::classes::Classes;

/// How many values are in each class.
#[derive(Clone, Copy)]
pub struct Counts {
    pub places: usize,
    pub marked: usize,
    pub due: usize,
    pub puts: usize,
    pub ends: usize,
}

/// The count of a class in which one value was or was not, and now is or is not.
fn shifted(count: usize, was: bool, is: bool) -> usize
    requires { Allows count was }
    ensures { result ≡ shift count was is }
{
    let others = if was { count - 1 } else { count };
    if is { others + 1 } else { others }
}

impl Counts {
    /// None in any.
    pub(crate) fn none() -> Counts
        ensures { result ≡ of_none }
    {
        Counts {
            places: 0,
            marked: 0,
            due: 0,
            puts: 0,
            ends: 0,
        }
    }

    /// The counts where one value that was in some classes is in others.
    pub(crate) fn moved(self, was: Classes, is: Classes) -> Counts
        requires { AllowsAll self was }
        ensures { result ≡ moved self was is }
    {
        Counts {
            places: shifted(self.places, was.place, is.place),
            marked: shifted(self.marked, was.marked, is.marked),
            due: shifted(self.due, was.due, is.due),
            puts: shifted(self.puts, was.puts, is.puts),
            ends: shifted(self.ends, was.ends, is.ends),
        }
    }
}
