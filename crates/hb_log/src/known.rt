//! What the log knows of the links that live.

ghost use Rattle.std.specs.Prelude.{◌≡◌, OnOk, OnErr, IfOk, Some};
ghost use Rattle.std.specs.FinMap as map;
ghost use Rattle.hb_log.specs.Known.{attempted, attempt_of, tells_attempt, is_usual, kind_fact, door_counted};
ghost use Rattle.hb_log.specs.Known.{MissesLink, after_accept, party_fact, way_fact, dial_fact, party_of, after_dial, finish_fact, after_finish};
ghost use Rattle.hb_log.specs.Known.{close_fact, after_close, tick_fact, after_tick, knows_nothing};

use crate::fact::{Fact, Kind, Party};
use hb_base::{Cause, Door, NoMemory, Target, Why};
use hb_map::ById;
use hb_world::{Born, Finished};
use std::alloc::Global;

/// The most links of doors that are told closed between two ticks.
const MOST: u64 = 64;

/// What the links are that live and that the log may tell, and what it counts.
#[derive(Drop)]
pub(crate) struct Known {
    links: ById<u64, Kind>,
    /// How often the control plane was dialled since a link to it was open.
    attempts: u64,
    /// How many links of doors were told closed since the last tick.
    told: u64,
    /// How many more there were.
    more: u64,
}

/// Of attempts in a row the first and the tenth are told.
fn tells_attempt(attempt: u64) -> bool
    ensures { result ≡ tells_attempt attempt }
{
    attempt <= 1 || attempt == 10
}

/// The way of an outbound link that goes straight. `None` where no link could be dialled.
fn way(link: u64, to: Target, born: Born) -> Option<Fact>
    ensures { result ≡ way_fact link to born }
{
    match born {
        Born::New(_) | Born::Failed => Some(Fact::Way { link, to }),
        Born::Balked | Born::NoMemory => None,
    }
}

/// Nothing is amiss with a link that is closed for this cause.
fn is_usual(cause: Cause) -> bool
    ensures { result ≡ is_usual cause }
{
    matches!(cause, Cause::Done | Cause::Stopped)
}

impl Known {
    /// No link lives.
    pub fn new(alloc: Global) -> Known
        ensures { result ≡ knows_nothing }
    {
        Known {
            links: ById::new(alloc),
            attempts: 0,
            told: 0,
            more: 0,
        }
    }

    /// What a link is.
    fn kind(&self, link: u64) -> Option<Kind>
        ensures { result ≡ map.get self.now.links link }
    {
        self.links.get(link).copied()
    }

    /// A link is accepted at a door, or none is.
    ///
    /// Errors: `NoMemory`, and then the link isn't known.
    pub fn accept(&mut self, door: Door, born: Born) -> Result<(), NoMemory>
        ensures ok { OnOk result (self.new ≡ after_accept door born self.old) }
        ensures err { OnErr result (MissesLink born self.old (after_accept door born self.old) self.new) }
    {
        match born {
            Born::New(link) => self.links.put(link, Kind::At(door)),
            Born::Balked | Born::Failed | Born::NoMemory => Ok(()),
        }
    }

    /// Which attempt in a row the last one was.
    fn attempt_of(&self, party: Party) -> u64
        ensures { result ≡ attempt_of party self.now }
    {
        match party {
            Party::Control => self.attempts,
            Party::Gateway => 1,
        }
    }

    /// One more attempt. Gives which in a row it is.
    fn attempt(&mut self, party: Party) -> u64
        ensures known { self.new ≡ attempted party self.old }
        ensures attempt { result ≡ attempt_of party self.new }
    {
        if matches!(party, Party::Control) {
            self.attempts = self.attempts.saturating_add(1);
        }
        self.attempt_of(party)
    }

    /// A link to a party is dialled, or none is. `None` where nothing is told of it.
    ///
    /// Errors: `NoMemory`, and then the attempt is counted, and the link isn't known.
    fn dial_party(&mut self, to: Target, party: Party, born: Born) -> Result<Option<Fact>, NoMemory>
        ensures fact { IfOk result (λ fact. fact ≡ party_fact to (Some party) born self.old) }
        ensures ok { OnOk result (self.new ≡ after_dial (Some party) born self.old) }
        ensures err { OnErr result (MissesLink born self.old (after_dial (Some party) born self.old) self.new) }
    {
        match born {
            Born::New(link) => {
                let attempt = self.attempt(party);
                self.links.put(link, Kind::To(party))?;
                let fact = Fact::Dialled {
                    party,
                    link,
                    to,
                    attempt,
                };
                Ok(tells_attempt(attempt).then_some(fact))
            }
            Born::Failed => {
                let attempt = self.attempt(party);
                Ok(tells_attempt(attempt).then_some(Fact::DialFailed { party, to, attempt }))
            }
            Born::Balked | Born::NoMemory => Ok(None),
        }
    }

    /// A link is dialled, or none is. `None` where nothing is told of it.
    ///
    /// Errors: `NoMemory`, and then the attempt is counted, and the link isn't known.
    pub fn dial(&mut self, to: Target, why: Why, born: Born) -> Result<Option<Fact>, NoMemory>
        ensures fact { IfOk result (λ fact. fact ≡ dial_fact to why born self.old) }
        ensures ok { OnOk result (self.new ≡ after_dial (party_of why) born self.old) }
        ensures err { OnErr result (MissesLink born self.old (after_dial (party_of why) born self.old) self.new) }
    {
        match why {
            Why::Discovery => self.dial_party(to, Party::Control, born),
            Why::Gateway { .. } => self.dial_party(to, Party::Gateway, born),
            Why::Direct { link } => Ok(way(link, to, born)),
            Why::Upstream { .. } | Why::Plain { .. } => Ok(None),
        }
    }

    /// A dialled link is open, or isn't. `None` where nothing is told of it.
    pub fn finish(&mut self, link: u64, finished: Finished) -> Option<Fact>
        ensures fact { result ≡ finish_fact link finished self.old }
        ensures known { self.new ≡ after_finish link finished self.old }
    {
        if !matches!(finished, Finished::Opened) {
            return None;
        }
        let Some(Kind::To(party)) = self.kind(link) else {
            return None;
        };
        if matches!(party, Party::Control) {
            self.attempts = 0;
        }
        Some(Fact::Opened { party, link })
    }

    /// A link of a door is closed for a cause.
    fn close_at(&mut self, link: u64, door: Door, cause: Cause) -> Option<Fact>
        ensures fact { result ≡ kind_fact link (Some (Kind.At door)) cause self.old }
        ensures known { self.new ≡ door_counted (Some (Kind.At door)) cause self.old }
    {
        if is_usual(cause) {
            return None;
        }
        if self.told < MOST {
            self.told += 1;
            return Some(Fact::Closed { link, door, cause });
        }
        self.more = self.more.saturating_add(1);
        None
    }

    /// A link is closed, and forgotten. `None` where nothing is told of it.
    pub fn close(&mut self, link: u64, cause: Cause) -> Option<Fact>
        ensures fact { result ≡ close_fact link cause self.old }
        ensures known { self.new ≡ after_close link cause self.old }
    {
        match self.links.remove(link) {
            Some(Kind::To(party)) => {
                let is_told = tells_attempt(self.attempt_of(party));
                is_told.then_some(Fact::Ended { party, link, cause })
            }
            Some(Kind::At(door)) => self.close_at(link, door, cause),
            None => None,
        }
    }

    /// Time passed. `None` where each link was told that was to be.
    pub fn tick(&mut self) -> Option<Fact>
        ensures fact { result ≡ tick_fact self.old }
        ensures known { self.new ≡ after_tick self.old }
    {
        let count = self.more;
        self.told = 0;
        self.more = 0;
        (count != 0).then_some(Fact::More { count })
    }
}
