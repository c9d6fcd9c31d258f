//! What an update of the resources held makes of the tunnels.

ghost use Rattle.std.specs.Prelude.{◌≡◌, true, false, IfSome};
ghost use Rattle.hb_held.specs.Few.{AreTouched};
ghost use Rattle.hb_held.specs.Touched.{touched};
ghost use Rattle.hb_link.specs.Calls.{Updates};
ghost use Rattle.hb_link.specs.Rousing.{Rouses};

use crate::link::Link;
use crate::notes::Notes;
use hb_held::{Few, Held};

impl Link {
    /// Nothing changed at the link's destination by the last response, which was applied whole: it isn't among the few addresses at which
    /// something did, where these are known, or `held` says so.
    fn is_spared(&self, held: &Held, few: Option<&Few>) -> bool
        requires { IfSome few (λ few. AreTouched held.now few.now) }
        ensures { result ≡ true → touched held.now self.now.destination ≡ false }
    {
        match few {
            Some(few) if !few.may_be(self.destination) => true,
            _ => held.is_settled() && !held.touched(self.destination),
        }
    }

    /// A response was applied, which made this of what is held. Each tunnel that is no longer admitted ends, and its stream gets what it
    /// gets. Says whether the tunnels were looked at: where nothing changed at the link's destination, each is admitted as before. `few`
    /// are the addresses at which something changed, where these are known to be few.
    pub fn judge_all<N: Notes>(&mut self, held: &Held, few: Option<&Few>, notes: &mut N) -> bool
        requires { IfSome few (λ few. AreTouched held.now few.now) }
        ensures updates { Updates held.now self.old (N.told notes.old) self.new (N.told notes.new) }
        ensures same { result ≡ false → self.new ≡ self.old }
        ensures rouses { Rouses self.old self.new }
    {
        if self.is_spared(held, few) {
            return false;
        }
        self.judge_tunnels(held);
        self.settle(notes);
        true
    }
}
