//! All inbound links.

ghost use Rattle.std.specs.Prelude.{true, ◌≡◌, OnOk};
ghost use Rattle.std.specs.FinMap.{get};
ghost use Rattle.hb_inbound.specs.Inbound.{no_link};
ghost use Rattle.hb_links.specs.Busy.{touched, counted, made_due, stirred, is_idle};
ghost use Rattle.hb_links.specs.Calls.{Begins, TurnsAway, count_of};
ghost use Rattle.hb_links.specs.Load.{places_in, recount, IsCounted, Recounts};
ghost use Rattle.hb_links.specs.Shows.{ShowsAll};
ghost use Rattle.hb_links.specs.Stirring.{Stirs};

use crate::family::Family;
use crate::place::Place;
use hb_base::NoMemory;
use hb_link::Link;
use hb_map::ById;
use std::alloc::Global;

/// The count of places, where those of one link became others.
fn recounted(taken: u128, before: usize, behind: usize) -> u128
    ensures { result ≡ recount taken before behind }
{
    taken
        .saturating_sub(before as u128)
        .saturating_add(behind as u128)
}

/// The inbound links of a node.
#[derive(Drop)]
pub struct Links {
    pub(crate) alloc: Global,
    pub(crate) links: ById<u64, Link>,
    /// Of each upstream that isn't closed, which tunnel it is of.
    pub(crate) ups: ById<u64, Place>,
    /// The link that was touched last since no act was due.
    pub(crate) busy: Option<u64>,
    /// From this number on further links may have an act due.
    pub(crate) from: Option<u64>,
    /// Of this link, and of its upstreams that are roused, more may be read, or is to be written, than when they were told last: they
    /// are told first.
    pub(crate) stirs: Option<Family>,
    /// So it is of all links from this number on, and of all their upstreams.
    pub(crate) stirs_from: Option<u64>,
    /// How many tunnels of all links take a place. A link has fewer than 2^32, and fewer than 2^64 links are kept.
    pub(crate) taken: u128,
}

impl Links {
    /// None: before each link's birth.
    pub fn new(alloc: Global) -> Links
        ensures shows { ShowsAll result (λ l. no_link) }
        ensures counted { IsCounted result }
        ensures idle { is_idle result ≡ true }
    {
        Links {
            alloc,
            links: ById::new(alloc),
            ups: ById::new(alloc),
            busy: None,
            from: None,
            stirs: None,
            stirs_from: None,
            taken: 0,
        }
    }

    /// How many tunnels of the link of this number take a place.
    pub(crate) fn places_at(&self, number: u64) -> usize
        ensures { result ≡ places_in (get self.now.links number) }
    {
        match self.links.get(number) {
            Some(link) => link.load(),
            None => 0,
        }
    }

    /// The tunnels of this link are counted anew, of which so many took a place before.
    pub(crate) fn count(&mut self, link: u64, before: usize)
        ensures { self.new ≡ counted link before self.old }
    {
        self.taken = recounted(self.taken, before, self.places_at(link));
    }

    /// This link may have an act due from now on.
    fn make_due(&mut self, link: u64)
        ensures { self.new ≡ made_due link self.old }
    {
        match self.busy {
            None => self.busy = Some(link),
            Some(busy) => {
                if busy != link {
                    self.from = match self.from {
                        None => Some(link),
                        Some(from) => Some(from.min(link)),
                    };
                }
            }
        }
    }

    /// It is to be told, and its upstreams that are roused.
    fn stir(&mut self, link: u64)
        ensures { self.new ≡ stirred link self.old }
    {
        let whole = Family { link, own: true };
        match self.stirs {
            None => self.stirs = Some(whole),
            Some(family) => {
                if family.link == link {
                    self.stirs = Some(whole);
                } else {
                    self.stirs_from = match self.stirs_from {
                        None => Some(link),
                        Some(from) => Some(from.min(link)),
                    };
                }
            }
        }
    }

    /// This link was told something. Before, so many of its tunnels took a place.
    pub(crate) fn touch(&mut self, link: u64, before: usize)
        ensures { self.new ≡ touched link before self.old }
    {
        self.count(link, before);
        self.make_due(link);
        self.stir(link);
    }

    /// No link has an act due.
    pub fn is_idle(&self) -> bool
        ensures { result ≡ is_idle self.now }
    {
        self.busy.is_none() && self.from.is_none()
    }

    /// A link was accepted.
    ///
    /// Errors: `NoMemory`, behind which the run ends.
    pub fn accepted(&mut self, number: u64) -> Result<(), NoMemory>
        ensures meets { OnOk result (Begins number self.old self.new) }
        ensures stirs { OnOk result (Stirs self.old self.new) }
        ensures counts { OnOk result (Recounts self.old self.new) }
    {
        let link = Link::accepted(self.alloc, number)?;
        let before = self.places_at(number);
        self.links.put(number, link)?;
        self.touch(number, before);
        Ok(())
    }

    /// A link was accepted where as many are open as may be: it is to be closed for that cause.
    ///
    /// Errors: `NoMemory`, behind which the run ends.
    pub fn turned_away(&mut self, number: u64) -> Result<(), NoMemory>
        ensures meets { OnOk result (TurnsAway number self.old self.new) }
        ensures stirs { OnOk result (Stirs self.old self.new) }
        ensures counts { OnOk result (Recounts self.old self.new) }
    {
        let link = Link::turned_away(self.alloc, number)?;
        let before = self.places_at(number);
        self.links.put(number, link)?;
        self.touch(number, before);
        Ok(())
    }

    /// How many inbound links are kept: each from its birth until its close was given.
    pub fn len(&self) -> usize
        ensures { result ≡ count_of self.now }
    {
        self.links.len()
    }

    /// How many tunnels of all links take a place.
    pub fn taken(&self) -> u128
        ensures { result ≡ self.now.taken }
    {
        self.taken
    }
}
