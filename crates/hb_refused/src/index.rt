//! Of hb_index.

ghost use Rattle.std.specs.Option.{option_copied};
ghost use Rattle.hb_index.specs.Indexed.{AreNamesAt};

use hb_index::{ByName, Indexed, Numbered};

/// `Indexed::names_at`, with its None.
pub fn names_at<T: Numbered>(indexed: &Indexed<T>, number: u128) -> Option<&ByName<()>>
    ensures { AreNamesAt T.numbers indexed.now.now number (option_copied result) }
{
    indexed.names_at(number)
}
