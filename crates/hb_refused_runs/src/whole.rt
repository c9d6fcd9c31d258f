//! Of hb_whole.

ghost use Rattle.std.specs.Prelude.{◌≡◌, ◌≤◌, length, OnOk};
ghost use Rattle.hb_turns.specs.Shown.{Tells};
ghost use Rattle.hb_whole.specs.Sight.{shown_of};
ghost use Rattle.hb_whole.specs.Stands.{Stands, config_of};
ghost use Rattle.hb_world.specs.declared.entry.Entry.TheVariants as e;

use hb_base::NoMemory;
use hb_whole::Proxy;

/// `Proxy::take_bytes`, with its Errors.
pub fn take_bytes(proxy: &mut Proxy, link: u64, bytes: &[u8]) -> Result<(), NoMemory>
    requires { length bytes.now ≤ (shown_of proxy.old).wants link }
    ensures tells { OnOk result (Tells Stands shown_of (e.Came link bytes.now) proxy.old proxy.new) }
    ensures config { OnOk result (config_of proxy.new ≡ config_of proxy.old) }
{
    proxy.take_bytes(link, bytes)
}
