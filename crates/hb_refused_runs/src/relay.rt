//! Of hb_relay.

ghost use Rattle.std.specs.Prelude.{◌≡◌};
ghost use Rattle.hb_relay.specs.Acts.{Acts};

use hb_relay::Relay;
use hb_world::Act;

/// `Relay::next_act`, with its None.
pub fn next_act(relay: &mut Relay) -> Option<Act>
    ensures acts { Acts result relay.old relay.new }
    ensures number { relay.new.number ≡ relay.old.number }
{
    relay.next_act()
}
