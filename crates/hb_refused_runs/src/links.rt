//! Of hb_links.

ghost use Rattle.std.specs.Prelude.{◌≤◌, length, OnOk};
ghost use Rattle.hb_links.specs.Calls.{Begins, Goes, Updates, held_of};
ghost use Rattle.hb_links.specs.Load.{Recounts};
ghost use Rattle.hb_links.specs.Stirring.{Stirs};

use hb_base::NoMemory;
use hb_held::Held;
use hb_link::Notes;
use hb_links::Links;

/// `Links::accepted`, with its Errors.
pub fn accepted(links: &mut Links, number: u64) -> Result<(), NoMemory>
    ensures meets { OnOk result (Begins number links.old links.new) }
    ensures stirs { OnOk result (Stirs links.old links.new) }
    ensures counts { OnOk result (Recounts links.old links.new) }
{
    links.accepted(number)
}

/// `Links::wrote`.
pub fn wrote<N: Notes>(links: &mut Links, number: u64, count: usize, notes: &mut N)
    requires { count ≤ length (held_of links.old number) }
    ensures meets { Goes number count links.old (N.told notes.old) links.new (N.told notes.new) }
    ensures stirs { Stirs links.old links.new }
    ensures counts { Recounts links.old links.new }
{
    links.wrote(number, count, notes);
}

/// `Links::applied`.
pub fn applied<N: Notes>(links: &mut Links, held: &Held, notes: &mut N)
    ensures meets { Updates held.now links.old (N.told notes.old) links.new (N.told notes.new) }
    ensures stirs { Stirs links.old links.new }
    ensures counts { Recounts links.old links.new }
{
    links.applied(held, notes);
}
