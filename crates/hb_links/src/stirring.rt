//! The links on which more may be read, or is to be written, than when they were told last.

ghost use Rattle.std.specs.Prelude.{◌≡◌, ℕ, false, None, IfNone};
ghost use Rattle.std.specs.FinMap.{get};
ghost use Rattle.hb_links.specs.Stirring.{Hears, OnlyHears, stirs_at};
ghost use Rattle.hb_links.specs.Walks.{RousesAll, TellsUp};

use crate::family::Family;
use crate::links::Links;

impl Links {
    /// Tells an upstream of this link that is roused. `None` where none is.
    fn tell_up(&mut self, link: u64) -> Option<u64>
        ensures { TellsUp (get self.old.links link) link result self.old self.new }
    {
        let link = self.links.at(link)?;
        link.next_roused()
    }

    /// Each upstream of this link is roused.
    fn rouse_all(&mut self, link: u64)
        ensures { RousesAll (get self.old.links link) link self.old self.new }
    {
        if let Some(link) = self.links.at(link) {
            link.rouse_all();
        }
    }

    /// Tells what is left of the family that is told first: the link itself, then its upstreams that are roused. `None` where nothing is.
    fn tell_left(&mut self) -> Option<u64>
        ensures hears { Hears result self.old self.new }
        ensures none { IfNone result (self.new.stirs ≡ None) }
        ensures same { OnlyHears self.old self.new }
    {
        let family = self.stirs?;
        self.stirs = None;
        if family.own {
            if self.links.get(family.link).is_none() {
                return None;
            }
            self.stirs = Some(Family {
                own: false,
                ..family
            });
            return Some(family.link);
        }
        let up = self.tell_up(family.link)?;
        self.stirs = Some(family);
        Some(up)
    }

    /// Tells the next link of those from a number on, whose upstreams are left to be told.
    fn tell_next(&mut self) -> Option<u64>
        requires { self.old.stirs ≡ None }
        ensures hears { Hears result self.old self.new }
        ensures none { IfNone result ((n : ℕ) → stirs_at self.new n ≡ false) }
        ensures same { OnlyHears self.old self.new }
    {
        let from = self.stirs_from?;
        self.stirs_from = None;
        let link = self.links.first_from(from)?;
        self.rouse_all(link);
        self.stirs = Some(Family { link, own: false });
        self.stirs_from = link.checked_add(1);
        Some(link)
    }

    /// The number of a link on which more may be read, or is to be written, than when that was told last: of an inbound link, or of an
    /// upstream of one. `None` where none is left that was not told.
    pub fn next_stirred(&mut self) -> Option<u64>
        ensures hears { Hears result self.old self.new }
        ensures none { IfNone result ((n : ℕ) → stirs_at self.new n ≡ false) }
        ensures same { OnlyHears self.old self.new }
    {
        match self.tell_left() {
            Some(number) => Some(number),
            None => self.tell_next(),
        }
    }
}
