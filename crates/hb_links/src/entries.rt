//! What comes and goes on links that are open.

ghost use Rattle.std.specs.Prelude.{◌≡◌, ◌≤◌, ◌-◌, ◌^◌, min, length};
ghost use Rattle.hb_world.specs.declared.entry.Entry.TheVariants as e;
ghost use Rattle.hb_links.specs.Calls.{Enters, Goes, Takes, wants_of, held_of};
ghost use Rattle.hb_links.specs.Load.{others_of, Recounts};
ghost use Rattle.hb_links.specs.Stirring.{Stirs};

use crate::links::Links;
use hb_held::Held;
use hb_link::Notes;

/// How many places the tunnels of other links take, where one link's take so many; as far as a limit may go.
fn other_places(taken: u128, own: usize) -> usize
    ensures { result ≡ min (taken - own) (2 ^ 64 - 1) }
{
    let others = taken.saturating_sub(own as u128);
    usize::try_from(others).unwrap_or(usize::MAX)
}

impl Links {
    /// The upstream of this number is open.
    pub fn opened<N: Notes>(&mut self, number: u64, notes: &mut N)
        ensures meets { Enters number (e.Opened number) self.old (N.told notes.old) self.new (N.told notes.new) }
        ensures stirs { Stirs self.old self.new }
        ensures counts { Recounts self.old self.new }
    {
        let Some(place) = self.ups.get(number).copied() else {
            return;
        };
        let before = self.places_at(place.link);
        let Some(link) = self.links.at(place.link) else {
            return;
        };
        link.up_opened(place.stream, notes);
        self.touch(place.link, before);
    }

    /// These bytes were read, while this was held. A request finds all places taken where `limit` tunnels of all links take one. Where
    /// memory is wanting for a header block that came, its link alone is to be closed.
    pub fn took<N: Notes>(
        &mut self,
        number: u64,
        held: &Held,
        limit: usize,
        b: &[u8],
        notes: &mut N,
    )
        requires { length b.now ≤ wants_of self.old number }
        ensures meets { Takes held.now (others_of self.old number) limit number b.now self.old (N.told notes.old) self.new
            (N.told notes.new) }
        ensures stirs { Stirs self.old self.new }
        ensures counts { Recounts self.old self.new }
    {
        match self.ups.get(number).copied() {
            Some(place) => {
                let before = self.places_at(place.link);
                let Some(link) = self.links.at(place.link) else {
                    return;
                };
                link.up_bytes(place.stream, b);
                self.touch(place.link, before);
            }
            None => {
                let before = self.places_at(number);
                let others = other_places(self.taken, before);
                let Some(link) = self.links.at(number) else {
                    return;
                };
                link.take_bytes(held, others, limit, b, notes);
                self.touch(number, before);
            }
        }
    }

    /// The peer of the link of this number sends no more.
    pub fn ended<N: Notes>(&mut self, number: u64, notes: &mut N)
        ensures meets { Enters number (e.Ended number) self.old (N.told notes.old) self.new (N.told notes.new) }
        ensures stirs { Stirs self.old self.new }
        ensures counts { Recounts self.old self.new }
    {
        match self.ups.get(number).copied() {
            Some(place) => {
                let before = self.places_at(place.link);
                let Some(link) = self.links.at(place.link) else {
                    return;
                };
                link.up_ended(place.stream, notes);
                self.touch(place.link, before);
            }
            None => {
                let before = self.places_at(number);
                let Some(link) = self.links.at(number) else {
                    return;
                };
                link.ended(notes);
                self.touch(number, before);
            }
        }
    }

    /// A call on the link of this number failed.
    pub fn broke<N: Notes>(&mut self, number: u64, notes: &mut N)
        ensures meets { Enters number (e.Broke number) self.old (N.told notes.old) self.new (N.told notes.new) }
        ensures stirs { Stirs self.old self.new }
        ensures counts { Recounts self.old self.new }
    {
        match self.ups.get(number).copied() {
            Some(place) => {
                let before = self.places_at(place.link);
                let Some(link) = self.links.at(place.link) else {
                    return;
                };
                link.up_broke(place.stream, notes);
                self.touch(place.link, before);
            }
            None => {
                let before = self.places_at(number);
                let Some(link) = self.links.at(number) else {
                    return;
                };
                link.broke(notes);
                self.touch(number, before);
            }
        }
    }

    /// The first `count` bytes that waited were written.
    pub fn wrote<N: Notes>(&mut self, number: u64, count: usize, notes: &mut N)
        requires { count ≤ length (held_of self.old number) }
        ensures meets { Goes number count self.old (N.told notes.old) self.new (N.told notes.new) }
        ensures stirs { Stirs self.old self.new }
        ensures counts { Recounts self.old self.new }
    {
        match self.ups.get(number).copied() {
            Some(place) => {
                let before = self.places_at(place.link);
                let Some(link) = self.links.at(place.link) else {
                    return;
                };
                link.up_wrote(place.stream, count, notes);
                self.touch(place.link, before);
            }
            None => {
                let before = self.places_at(number);
                let Some(link) = self.links.at(number) else {
                    return;
                };
                link.wrote(count, notes);
                self.touch(number, before);
            }
        }
    }
}
