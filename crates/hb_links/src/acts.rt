//! The calls of the world that are due.

ghost use Rattle.std.specs.Prelude.{◌≡◌, true, None, IfNone};
ghost use Rattle.hb_links.specs.Acts.{Acts};
ghost use Rattle.hb_links.specs.Busy.{is_idle};
ghost use Rattle.hb_links.specs.Load.{Recounts};
ghost use Rattle.hb_links.specs.Stirring.{StirsBut, closed_in};
ghost use Rattle.hb_links.specs.Walks.{ActsOf, GoesTo, Skips, closed_by, finished};

use crate::links::Links;
use hb_world::Act;

impl Links {
    /// A link was closed for the one of this number, which may be its own, or an upstream's.
    fn leave(&mut self, number: u64, closed: u64)
        ensures { self.new ≡ closed_by number closed self.old }
    {
        if closed == number {
            self.links.remove(number);
        } else {
            self.ups.remove(closed);
        }
    }

    /// An act of the link of this number was given. Before, so many of its tunnels took a place.
    fn finish(&mut self, number: u64, act: Act, before: usize)
        ensures { self.new ≡ finished number act before self.old }
    {
        if let Act::Close { link, .. } = act {
            self.leave(number, link);
        }
        self.touch(number, before);
    }

    /// The act that is due of the link of this number.
    fn act_of(&mut self, number: u64) -> Option<Act>
        ensures acts { ActsOf number result self.old self.new }
        ensures stirs { StirsBut (closed_in result) self.old self.new }
        ensures counts { Recounts self.old self.new }
    {
        let before = self.places_at(number);
        let Some(link) = self.links.at(number) else {
            return None;
        };
        let Some(act) = link.next_act() else {
            return None;
        };
        self.finish(number, act, before);
        Some(act)
    }

    /// The next link that may have an act due, beside the one that was touched last.
    fn next_from(&mut self) -> Option<u64>
        ensures { GoesTo result self.old self.new }
    {
        self.from = match self.from {
            Some(from) => self.links.first_from(from),
            None => None,
        };
        self.from
    }

    /// No act is due of this one.
    fn skip(&mut self, number: u64)
        ensures { Skips number self.old self.new }
    {
        self.from = number.checked_add(1);
    }

    /// The act that is due, where no link was touched last.
    fn walk(&mut self) -> Option<Act>
        requires { self.old.busy ≡ None }
        ensures acts { Acts result self.old self.new }
        ensures none { IfNone result (is_idle self.new ≡ true) }
        ensures stirs { StirsBut (closed_in result) self.old self.new }
        ensures counts { Recounts self.old self.new }
    {
        while let Some(number) = self.next_from() {
            if let Some(act) = self.act_of(number) {
                return Some(act);
            }
            self.skip(number);
        }
        None
    }

    /// The call that is due, `None` where none is. A shut or a close counts as done from now on; a dial stays due until its answer is
    /// told.
    pub fn next_act(&mut self) -> Option<Act>
        ensures acts { Acts result self.old self.new }
        ensures none { IfNone result (is_idle self.new ≡ true) }
        ensures stirs { StirsBut (closed_in result) self.old self.new }
        ensures counts { Recounts self.old self.new }
    {
        let Some(number) = self.busy else {
            return self.walk();
        };
        let Some(act) = self.act_of(number) else {
            self.busy = None;
            return self.walk();
        };
        Some(act)
    }
}
