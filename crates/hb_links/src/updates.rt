//! What is told to all links at once.

ghost use Rattle.std.specs.Prelude.{◌+◌, IfSome};
ghost use Rattle.std.specs.FinMap.{get};
ghost use Rattle.hb_held.specs.Few.{AreTouched};
ghost use Rattle.hb_link.specs.Calls.{Stops};
ghost use Rattle.hb_links.specs.Calls.{Updates, Stops as AllStop};
ghost use Rattle.hb_links.specs.Load.{Recounts};
ghost use Rattle.hb_links.specs.Stirring.{Stirs};
ghost use Rattle.hb_links.specs.Walks.{IsNext, JudgesAt, TellsBy};

use crate::links::Links;
use hb_base::Cause;
use hb_held::{Few, Held};
use hb_link::{Link, Notes};
use hb_map::ById;

/// The least number behind this one that has a link.
pub(crate) fn first_behind(links: &ById<u64, Link>, number: u64) -> Option<u64>
    ensures { IsNext links.now number result }
{
    match number.checked_add(1) {
        Some(from) => links.first_from(from),
        None => None,
    }
}

impl Links {
    /// What a response that was applied makes of the link of this number.
    fn judge_at<N: Notes>(&mut self, number: u64, held: &Held, few: Option<&Few>, notes: &mut N)
        requires { IfSome few (λ few. AreTouched held.now few.now) }
        ensures judges { JudgesAt held.now (get self.old.links number) number self.old (N.told notes.old) self.new (N.told notes.new) }
        ensures counts { Recounts self.old self.new }
    {
        let Some(link) = self.links.at(number) else {
            return;
        };
        let before = link.load();
        if link.judge_all(held, few, notes) {
            self.touch(number, before);
        }
    }

    /// What the end of the run makes of it.
    fn stop_at<N: Notes>(&mut self, number: u64, cause: Cause, notes: &mut N)
        ensures tells { TellsBy (Stops cause) (get self.old.links number) number self.old (N.told notes.old) self.new (N.told notes.new) }
        ensures counts { Recounts self.old self.new }
    {
        let before = self.places_at(number);
        let Some(link) = self.links.at(number) else {
            return;
        };
        link.stopped(cause, notes);
        self.count(number, before);
    }

    /// A response was applied, which made this of what is held: each tunnel of each link that is no longer admitted ends. A link at whose
    /// destination nothing changed isn't touched.
    pub fn applied<N: Notes>(&mut self, held: &Held, notes: &mut N)
        ensures meets { Updates held.now self.old (N.told notes.old) self.new (N.told notes.new) }
        ensures stirs { Stirs self.old self.new }
        ensures counts { Recounts self.old self.new }
    {
        let few = held.touched_few();
        let mut from = self.links.first_from(0);
        while let Some(number) = from {
            self.judge_at(number, held, few.as_ref(), notes);
            from = first_behind(&self.links, number);
        }
    }

    /// The run ends for this cause: each link does, and each of its tunnels.
    pub fn stopped<N: Notes>(&mut self, cause: Cause, notes: &mut N)
        ensures meets { AllStop cause self.old (N.told notes.old) self.new (N.told notes.new) }
        ensures stirs { Stirs self.old self.new }
        ensures counts { Recounts self.old self.new }
    {
        let mut from = self.links.first_from(0);
        while let Some(number) = from {
            self.stop_at(number, cause, notes);
            from = first_behind(&self.links, number);
        }
        self.from = Some(0);
        self.stirs_from = Some(0);
    }
}
