//! The links that live, and the list of those that are to be tried.
#![tactic(auto, unfolding(crate::specs::Registry::kept, crate::specs::Registry::HasRoom))]

ghost use Rattle.std.specs.Prelude.{◌≡◌, ◌≤◌, ℕ, ◌+◌, ◌==◌, ◌∷◌, ◌++◌, [], true, false, not, if◌then◌else◌, drop, length, Some, None, IsSome, IfOk, IfSome, OnOk, OnErr, IfNone, nat_eq, slice_get};
ghost use Rattle.std.specs.HashMap.{get, hash_map_len};
ghost use Rattle.std.specs.Option.{option_map, is_some};
ghost use Rattle.std.specs.VecDeque.{deque_len, deque_capacity};
ghost use Rattle.hb_ready.specs.Kept.{is_marked, has, off_list, all_off_list};

use crate::link::{Link, Place};
use hb_base::NoMemory;
use std::alloc::Global;
use std::collections::{HashMap, VecDeque};

/// The links that live, by their numbers, and a list of numbers. A number that stands on the list is that of a link that is to be
/// tried, or that lived when it was put there.
///
/// `reserve` alone takes memory: for one more link, and for the list's room for every link that lives.
#[derive(Drop)]
pub struct Links {
    places: HashMap<u64, Place>,
    list: VecDeque<u64>,
    ghost marked: { (l : ℕ) → is_marked (get nat_eq places l) ≡ true → has list.items l ≡ true },
    ghost room: { deque_len list + all_off_list places ≤ deque_capacity list },
}

/// Puts this in place of what stands under the number.
fn put(places: &mut HashMap<u64, Place>, link: u64, place: Place)
    requires { IsSome (get nat_eq places.old link) }
    ensures places { (l : ℕ) → get nat_eq places.new l ≡ (if link == l then Some place else get nat_eq places.old l) }
    ensures off_list { IfSome (get nat_eq places.old link) (λ was. all_off_list places.new + off_list was ≡ all_off_list places.old + off_list place) }
    ensures count { hash_map_len places.new ≡ hash_map_len places.old }
{
    match places.insert(link, place) {
        Ok(_) => {}
        Err(_) => unreachable!(),
    }
}

impl Links {
    ghost use Rattle.hb_world.specs.declared.entry.Entry.TheVariants as e;
    ghost use Rattle.hb_world.specs.declared.entry.Way.TheVariants as way;
    ghost use Rattle.hb_ready.specs.Sight.{fresh, awake};
    ghost use Rattle.hb_ready.specs.Kept.{Follows, IsKept, KeepsList, Lists, rotated};
    ghost use Rattle.hb_ready.specs.Registry.{kept, HasRoom};

    /// None.
    pub fn new(alloc: Global) -> Links
        ensures links { (l : ℕ) → (kept result).links l ≡ None }
        ensures count { (kept result).count ≡ 0 }
        ensures listed { (kept result).listed ≡ [] }
    {
        Links {
            places: HashMap::new(alloc),
            list: VecDeque::new(alloc),
        }
    }

    /// A link. `None` where none of this number lives.
    pub fn get(&self, link: u64) -> Option<Link>
        ensures { result ≡ (kept self.now).links link }
    {
        match self.places.get(&link) {
            Some(place) => Some(place.link),
            None => None,
        }
    }

    /// Of what is known of a link that lives, this.
    fn set(&mut self, link: u64, now: Link)
        ensures links { (l : ℕ) → (kept self.new).links l ≡ (if link == l then option_map (λ k. now) ((kept self.old).links l) else (kept self.old).links l) }
        ensures count { (kept self.new).count ≡ (kept self.old).count }
        ensures listed { (kept self.new).listed ≡ (kept self.old).listed }
    {
        if let Some(place) = self.places.get(&link).copied() {
            let place = Place {
                link: now,
                is_listed: place.is_listed,
            };
            put(&mut self.places, link, place);
        }
    }

    /// Takes the memory for one more link.
    ///
    /// Errors: `NoMemory`.
    pub fn reserve(&mut self) -> Result<(), NoMemory>
        ensures same { IsKept (kept self.old) (kept self.new) }
        ensures room { OnOk result (HasRoom self.new) }
    {
        let room = self.places.len() + 2;
        self.places.reserve(1)?;
        self.list.reserve(room)?;
        Ok(())
    }

    /// A link is born: accepted, and so open, or dialled. It stands at the list's end.
    pub fn born(&mut self, link: u64, is_open: bool)
        requires { HasRoom self.old }
        ensures links { (l : ℕ) → (kept self.new).links l ≡ (if link == l then Some (fresh is_open) else (kept self.old).links l) }
        ensures listed { (kept self.new).listed ≡ (kept self.old).listed ++ link ∷ [] }
    {
        let link_now = Link {
            is_dialled: !is_open,
            is_open,
            finish_sleeps: false,
            read_sleeps: false,
            write_sleeps: false,
            has_ended: false,
            look_sleeps: false,
        };
        let place = Place {
            link: link_now,
            is_listed: true,
        };
        match self.places.insert(link, place) {
            Ok(_) => {}
            Err(_) => unreachable!(),
        }
        self.list.push_back_reserved(link);
    }

    /// A finish told that the link is open. It stands on the list.
    pub fn opened(&mut self, link: u64)
        ensures follows { Follows (kept self.old) (kept self.new) (e.Opened link) }
        ensures lists { Lists (kept self.old) (kept self.new) link }
        ensures count { (kept self.new).count ≡ (kept self.old).count }
    {
        if let Some(known) = self.get(link) {
            let now = Link {
                is_open: true,
                finish_sleeps: false,
                ..known
            };
            self.set(link, now);
            self.list(link);
        }
    }

    /// A finish of the link moved nothing.
    pub fn finish_balked(&mut self, link: u64)
        ensures follows { Follows (kept self.old) (kept self.new) (e.Balked (way.Finish link)) }
        ensures stays { KeepsList (kept self.old) (kept self.new) }
    {
        if let Some(known) = self.get(link) {
            let now = Link {
                finish_sleeps: true,
                ..known
            };
            self.set(link, now);
        }
    }

    /// A read of the link moved nothing.
    pub fn read_balked(&mut self, link: u64)
        ensures follows { Follows (kept self.old) (kept self.new) (e.Balked (way.Read link)) }
        ensures stays { KeepsList (kept self.old) (kept self.new) }
    {
        if let Some(known) = self.get(link) {
            let now = Link {
                read_sleeps: true,
                ..known
            };
            self.set(link, now);
        }
    }

    /// A write of the link moved nothing.
    pub fn write_balked(&mut self, link: u64)
        ensures follows { Follows (kept self.old) (kept self.new) (e.Balked (way.Write link)) }
        ensures stays { KeepsList (kept self.old) (kept self.new) }
    {
        if let Some(known) = self.get(link) {
            let now = Link {
                write_sleeps: true,
                ..known
            };
            self.set(link, now);
        }
    }

    /// A look at the link moved nothing.
    pub fn look_balked(&mut self, link: u64)
        ensures follows { Follows (kept self.old) (kept self.new) (e.Balked (way.Look link)) }
        ensures stays { KeepsList (kept self.old) (kept self.new) }
    {
        if let Some(known) = self.get(link) {
            let now = Link {
                look_sleeps: true,
                ..known
            };
            self.set(link, now);
        }
    }

    /// A read told that the link's peer sends no more.
    pub fn ended(&mut self, link: u64)
        ensures follows { Follows (kept self.old) (kept self.new) (e.Ended link) }
        ensures stays { KeepsList (kept self.old) (kept self.new) }
    {
        if let Some(known) = self.get(link) {
            let now = Link {
                read_sleeps: false,
                has_ended: true,
                look_sleeps: true,
                ..known
            };
            self.set(link, now);
        }
    }

    /// The link is closed. Its number stays on the list where it stands there.
    pub fn closed(&mut self, link: u64)
        ensures links { (l : ℕ) → (kept self.new).links l ≡ (if link == l then None else (kept self.old).links l) }
        ensures count { (kept self.new).count + (if is_some ((kept self.old).links link) then 1 else 0) ≡ (kept self.old).count }
        ensures listed { (kept self.new).listed ≡ (kept self.old).listed }
    {
        let _ = self.places.remove(&link);
    }

    /// A link that lives stands on the list from now on: at its end, where it wasn't on it.
    pub fn list(&mut self, link: u64)
        ensures links { (l : ℕ) → (kept self.new).links l ≡ (kept self.old).links l }
        ensures lists { Lists (kept self.old) (kept self.new) link }
        ensures count { (kept self.new).count ≡ (kept self.old).count }
    {
        let Some(place) = self.places.get(&link).copied() else {
            return;
        };
        if place.is_listed {
            return;
        }
        let listed = Place {
            link: place.link,
            is_listed: true,
        };
        put(&mut self.places, link, listed);
        self.list.push_back_reserved(link);
    }

    /// A wait named the link: every way is awake, and it stands on the list.
    pub fn wake(&mut self, link: u64)
        ensures links { (l : ℕ) → (kept self.new).links l ≡ (if link == l then option_map awake ((kept self.old).links l) else (kept self.old).links l) }
        ensures lists { Lists (kept self.old) (kept self.new) link }
        ensures count { (kept self.new).count ≡ (kept self.old).count }
    {
        if let Some(known) = self.get(link) {
            let now = Link {
                finish_sleeps: false,
                read_sleeps: false,
                write_sleeps: false,
                look_sleeps: false,
                ..known
            };
            self.set(link, now);
            self.list(link);
        }
    }

    /// How many numbers the list has.
    pub fn len(&self) -> usize
        ensures { result ≡ length (kept self.now).listed }
    {
        self.list.len()
    }

    /// The number at the list's front; `None` where the list is empty.
    pub fn front(&self) -> Option<u64>
        ensures some { IfSome result (λ l. (kept self.now).listed ≡ l ∷ drop 1 (kept self.now).listed) }
        ensures none { IfNone result ((kept self.now).listed ≡ []) }
    {
        self.list.front().copied()
    }

    /// The number at the list's front goes to its end.
    pub fn rotate(&mut self)
        ensures links { (l : ℕ) → (kept self.new).links l ≡ (kept self.old).links l }
        ensures listed { (kept self.new).listed ≡ rotated (kept self.old).listed }
        ensures count { (kept self.new).count ≡ (kept self.old).count }
    {
        if let Some(link) = self.list.pop_front() {
            self.list.push_back_reserved(link);
        }
    }

    /// The number at the list's front leaves it.
    pub fn pop(&mut self)
        ensures links { (l : ℕ) → (kept self.new).links l ≡ (kept self.old).links l }
        ensures listed { (kept self.new).listed ≡ drop 1 (kept self.old).listed }
        ensures count { (kept self.new).count ≡ (kept self.old).count }
    {
        let Some(link) = self.list.pop_front() else {
            return;
        };
        if let Some(place) = self.places.get(&link).copied() {
            let off = Place {
                link: place.link,
                is_listed: false,
            };
            put(&mut self.places, link, off);
        }
    }

    /// A link that lives. `None` exactly where none does.
    pub fn any(&self) -> Option<u64>
        ensures some { IfSome result (λ l. IsSome ((kept self.now).links l)) }
        ensures none { IfNone result ((l : ℕ) → (kept self.now).links l ≡ None) }
    {
        self.places.keys().next().copied()
    }
}
