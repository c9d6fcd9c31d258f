//! Of hb_held.

ghost use Rattle.std.specs.Prelude.{◌≡◌, IfOk, OnOk, OnErr, IsTrue};
ghost use Rattle.std.specs.Option.{option_map};
ghost use Rattle.hb_held.specs.Lookup.{known, found_as};
ghost use Rattle.hb_held.specs.Outcome.{after_response, outcome_of, AfterFront};
ghost use Rattle.hb_held.specs.Touched.{touched};

use hb_base::{Ip, NoMemory};
use hb_disco::Response;
use hb_held::{Found, Held, Outcome};
use std::alloc::Global;

/// `Held::apply`, with its Errors.
pub fn apply(held: &mut Held, alloc: Global, response: &Response) -> Result<Outcome, NoMemory>
    ensures outcome { IfOk result (λ outcome. outcome ≡ outcome_of held.old response.now) }
    ensures held { OnOk result (held.new ≡ after_response held.old response.now) }
    ensures stays { OnErr result (AfterFront held.old response.now held.new) }
{
    held.apply(alloc, response)
}

/// `Held::known`, with its None.
pub fn known(held: &Held, ip: Ip) -> Option<Found<'_>>
    ensures { option_map found_as result ≡ known held.now ip }
{
    held.known(ip)
}

/// `Held::touched`.
pub fn touched(held: &Held, ip: Ip) -> bool
    requires settled { IsTrue held.now.settled }
    ensures { result ≡ touched held.now ip }
{
    held.touched(ip)
}
