//! Of hb_table.

ghost use Rattle.std.specs.Prelude.{◌≡◌};
ghost use Rattle.hb_table.specs.Judgement.{judged};

use hb_base::{Peer, Target};
use hb_held::Held;
use hb_table::Judged;

/// `judge`.
pub fn judge(held: &Held, peer: &Peer, target: Target) -> Judged
    ensures { result ≡ judged held.now peer.now target }
{
    hb_table::judge(held, peer, target)
}
