//! Of hb_relays.

ghost use Rattle.std.specs.Prelude.{◌≤◌, length, OnOk};
ghost use Rattle.hb_relays.specs.Calls.{Begins, Goes, Updates, Stops as AllStop, held_of};
ghost use Rattle.hb_relays.specs.Stirring.{Stirs};

use hb_base::{Cause, Door, NoMemory};
use hb_held::Held;
use hb_link::Notes;
use hb_relays::Relays;

/// `Relays::accepted`, with its Errors.
pub fn accepted(relays: &mut Relays, door: Door, number: u64) -> Result<(), NoMemory>
    ensures meets { OnOk result (Begins door number relays.old relays.new) }
    ensures stirs { OnOk result (Stirs relays.old relays.new) }
{
    relays.accepted(door, number)
}

/// `Relays::wrote`.
pub fn wrote<N: Notes>(relays: &mut Relays, number: u64, count: usize, notes: &mut N)
    requires { count ≤ length (held_of relays.old number) }
    ensures meets { Goes number count relays.old (N.told notes.old) relays.new (N.told notes.new) }
    ensures stirs { Stirs relays.old relays.new }
{
    relays.wrote(number, count, notes);
}

/// `Relays::applied`.
pub fn applied<N: Notes>(relays: &mut Relays, held: &Held, notes: &mut N)
    ensures meets { Updates held.now relays.old (N.told notes.old) relays.new (N.told notes.new) }
    ensures stirs { Stirs relays.old relays.new }
{
    relays.applied(held, notes);
}

/// `Relays::stopped`.
pub fn stopped<N: Notes>(relays: &mut Relays, cause: Cause, notes: &mut N)
    ensures meets { AllStop cause relays.old (N.told notes.old) relays.new (N.told notes.new) }
    ensures stirs { Stirs relays.old relays.new }
{
    relays.stopped(cause, notes);
}
