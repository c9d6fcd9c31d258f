//! Of hb_route.

ghost use Rattle.std.specs.Prelude.{◌≡◌};
ghost use Rattle.hb_route.specs.Answer.{way_as};
ghost use Rattle.hb_route.specs.Routing.{way};

use hb_base::{Ip, Target};
use hb_held::Held;
use hb_route::{Opens, Route};

/// `route`.
pub fn route<'a>(
    held: &'a Held,
    opens: &Opens,
    source: Ip,
    destination: Target,
    hbone_port: u16,
) -> Route<'a>
    ensures { way_as result ≡ way held.now opens.now source destination hbone_port }
{
    hb_route::route(held, opens, source, destination, hbone_port)
}
