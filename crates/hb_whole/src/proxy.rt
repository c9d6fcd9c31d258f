//! The whole proxy.

ghost use Rattle.std.specs.Prelude.{◌≡◌, ◌≤◌, ◌++◌, [], ℕ, List, length, take, true, false, OnOk, IfOk, IfNone, IfSome, Some};
ghost use Rattle.std.specs.Option.{option_to_list};
ghost use Rattle.hb_base.specs.declared.note.Note.{Note};
ghost use Rattle.hb_base.specs.declared.target.Target.{Target};
ghost use Rattle.hb_world.specs.declared.entry.Entry.{Entry};
ghost use Rattle.hb_world.specs.declared.entry.Entry.TheVariants as e;
ghost use Rattle.hb_turns.specs.Shown.{IsFront, IsSame, Hears, Tells, StandsAs, StandsForNone, Stops, Acts, ActsFor, dial_entry};
ghost use Rattle.hb_frames.specs.Frames.{AreOctets};
ghost use Rattle.hb_turns.specs.Served.{IsFreshNode};
ghost use Rattle.hb_whole.specs.Acting.{dial_in, is_strange, given_by, act_of};
ghost use Rattle.hb_whole.specs.Queue.{told};
ghost use Rattle.hb_whole.specs.Sight.{owns, owner_of, own_told, has_room, places_of, shown_of, applied_of};
ghost use Rattle.hb_whole.specs.Stands.{Stands, config_of, held_of};

use crate::owner::Owner;
use crate::queue::Queue;
use crate::side::{Applied, Side};
use hb_base::{Cause, Door, NoMemory, Note, Target, Why};
use hb_held::Held;
use hb_links::Links;
use hb_model::{Act as ControlAct, Limits, NodeConfig};
use hb_node::Node as Control;
use hb_relays::Relays;
use hb_world::Act;
use std::alloc::Global;

/// A node of the mesh: its link to the control plane, its inbound links with their tunnels, and its plain links.
#[derive(Drop)]
pub struct Proxy {
    pub(crate) control: Control,
    pub(crate) side: Side,
    pub(crate) limits: Limits,
    /// The link to the control plane stirred, and that wasn't told.
    pub(crate) stirs: bool,
    /// The dial that was given, until its answer is told.
    pub(crate) dials: Option<(Target, Why)>,
    /// The cause for which links are closed, once the run is to end.
    pub(crate) ends_for: Option<Cause>,
    /// An act came behind the end of a run that none can be due there: the proxy stands for no trace.
    pub(crate) strange: bool,
}

/// The bytes of a slice are octets.
fn are_octets(bytes: &[u8])
    ensures { AreOctets bytes.now }
{
    let _count = bytes.len();
}

/// An act of the control plane's link.
fn act_of(act: ControlAct) -> Act
    ensures { result ≡ act_of act }
{
    match act {
        ControlAct::Dial { to, why } => Act::Dial { to, why },
        ControlAct::Close { link, cause } => Act::Close { link, cause },
    }
}

impl Proxy {
    /// A node that holds nothing, and whose control plane is to be dialled.
    ///
    /// Errors: `NoMemory`.
    pub fn new(alloc: Global, config: NodeConfig) -> Result<Proxy, NoMemory>
        ensures stands { IfOk result (λ proxy. Stands [] proxy []) }
        ensures fresh { IfOk result (λ proxy. IsFreshNode (shown_of proxy)) }
        ensures config { IfOk result (λ proxy. config_of proxy ≡ config) }
    {
        let hbone_port = config.hbone_port;
        let limits = config.limits;
        let control = Control::new(alloc, config)?;
        Ok(Proxy {
            control,
            side: Side {
                links: Links::new(alloc),
                relays: Relays::new(alloc, hbone_port),
                notes: Queue::new(alloc),
                applied: Vec::new(alloc),
            },
            limits,
            stirs: false,
            dials: None,
            ends_for: None,
            strange: false,
        })
    }

    /// The resources that are held.
    pub fn held(&self) -> &Held
        ensures { result.now ≡ held_of self.now }
    {
        self.control.held()
    }

    /// What the responses did that were applied and weren't forgotten, in order. One for which memory lacked isn't there.
    pub fn applied(&self) -> &[Applied]
        ensures { result.now ≡ applied_of self.now }
    {
        self.side.applied.as_slice()
    }

    /// Forgets what the responses did that were applied so far.
    pub fn forget_applied(&mut self)
        ensures none { applied_of self.new ≡ [] }
        ensures stands { StandsAs Stands self.old self.new }
        ensures same { IsSame (shown_of self.old) (shown_of self.new) }
        ensures stirs { (l : ℕ) → (shown_of self.new).stirs l ≡ (shown_of self.old).stirs l }
        ensures noted { (shown_of self.new).noted ≡ (shown_of self.old).noted }
        ensures config { config_of self.new ≡ config_of self.old }
    {
        self.side.applied.clear();
    }

    /// Whether a link is the one to the control plane that lives.
    fn owns(&self, link: u64) -> bool
        ensures { result ≡ owns self.now link }
    {
        match self.control.number() {
            Some(number) => number == link,
            None => false,
        }
    }

    /// Whose the link of a number is.
    fn owner_of(&self, link: u64) -> Owner
        ensures { result ≡ owner_of self.now link }
    {
        if self.owns(link) {
            Owner::Control
        } else if self.side.relays.has(link) {
            Owner::Plain
        } else {
            Owner::Inbound
        }
    }

    /// How many places the tunnels of inbound links may take: each plain link that is kept takes one.
    fn places(&self) -> usize
        ensures { result ≡ places_of self.now }
    {
        (self.limits.tunnels as usize).saturating_sub(self.side.relays.len())
    }

    /// Whether one more inbound link, or one to a gateway, may be open.
    fn has_room(&self) -> bool
        ensures { result ≡ has_room self.now }
    {
        self.side
            .links
            .len()
            .saturating_add(self.side.relays.gates())
            < self.limits.links as usize
    }

    /// The link to the control plane, where it stirred and that wasn't told. `None`: there is none.
    fn next_own(&mut self) -> Option<u64>
        ensures own { result ≡ own_told self.old }
        ensures after { self.new ≡ record self.old { stirs = false } }
    {
        let stirs = self.stirs;
        self.stirs = false;
        if stirs { self.control.number() } else { None }
    }

    /// An act that is due, as it is given: behind the end of the run a close, for that cause.
    fn give(&mut self, act: Act) -> Option<Act>
        ensures given { result ≡ given_by self.old.ends_for act }
        ensures after { self.new ≡ record self.old { dials = dial_in self.old.ends_for act; strange = is_strange self.old act } }
    {
        let Some(cause) = self.ends_for else {
            self.dials = match act {
                Act::Dial { to, why } => Some((to, why)),
                _ => None,
            };
            return Some(act);
        };
        self.dials = None;
        match act {
            Act::Close { link, .. } => Some(Act::Close { link, cause }),
            _ => {
                self.strange = true;
                None
            }
        }
    }
}

impl Proxy {
    /// A link was accepted at a door.
    ///
    /// Errors: `NoMemory`, behind which the run ends.
    pub fn accepted(&mut self, link: u64, door: Door) -> Result<(), NoMemory>
        ensures tells { OnOk result (Tells Stands shown_of (e.Accepted link door) self.old self.new) }
        ensures config { config_of self.new ≡ config_of self.old }
    {
        self.dials = None;
        match door {
            Door::Inbound => {
                if self.has_room() {
                    self.side.links.accepted(link)
                } else {
                    self.side.links.turned_away(link)
                }
            }
            Door::Plain | Door::Outbound => {
                if self.side.links.taken() < self.places() as u128 {
                    self.side.relays.accepted(door, link)
                } else {
                    self.side.relays.turned_away(door, link)
                }
            }
        }
    }

    /// What came of the dial that was given: a link, or none.
    ///
    /// Errors: `NoMemory`, behind which the run ends.
    pub fn dialled(&mut self, why: Why, link: Option<u64>) -> Result<(), NoMemory>
        ensures tells { OnOk result ((to : Target) → Tells Stands shown_of (dial_entry to why link) self.old self.new) }
        ensures config { OnOk result (config_of self.new ≡ config_of self.old) }
    {
        self.dials = None;
        match why {
            Why::Discovery => {
                self.stirs = true;
                self.control.dialled(why, link)
            }
            Why::Upstream { link: at, stream } => match link {
                Some(number) => self.side.links.dialled(at, stream, number),
                None => {
                    self.side
                        .links
                        .dial_failed(at, stream, &mut self.side.notes);
                    Ok(())
                }
            },
            Why::Plain { link: at } | Why::Direct { link: at } => match link {
                Some(number) => self.side.relays.dialled(at, number),
                None => {
                    self.side.relays.dial_failed(at, &mut self.side.notes);
                    Ok(())
                }
            },
            Why::Gateway { link: at } => match link {
                Some(number) => self.side.relays.gate_dialled(at, number),
                None => {
                    self.side.relays.dial_failed(at, &mut self.side.notes);
                    Ok(())
                }
            },
        }
    }

    /// A dialled link is open.
    pub fn opened(&mut self, link: u64)
        ensures tells { Tells Stands shown_of (e.Opened link) self.old self.new }
        ensures config { config_of self.new ≡ config_of self.old }
    {
        self.dials = None;
        match self.owner_of(link) {
            Owner::Control => {
                self.stirs = true;
                self.control.opened(link);
            }
            Owner::Plain => self.side.relays.opened(link, &mut self.side.notes),
            Owner::Inbound => self.side.links.opened(link, &mut self.side.notes),
        }
    }

    /// How many bytes may be read on a link now.
    pub fn wants(&self, link: u64) -> usize
        ensures { result ≡ (shown_of self.now).wants link }
    {
        match self.owner_of(link) {
            Owner::Control => self.control.wants(link),
            Owner::Plain => self.side.relays.wants(link),
            Owner::Inbound => self.side.links.wants(link),
        }
    }

    /// The link that is read in front of all others: the one to the control plane. `None`: none lives.
    pub fn first(&self) -> Option<u64>
        ensures { result ≡ (shown_of self.now).first }
    {
        self.control.number()
    }

    /// These bytes were read on a link.
    ///
    /// Errors: `NoMemory`, behind which the run ends.
    pub fn take_bytes(&mut self, link: u64, bytes: &[u8]) -> Result<(), NoMemory>
        requires { length bytes.now ≤ (shown_of self.old).wants link }
        ensures tells { OnOk result (Tells Stands shown_of (e.Came link bytes.now) self.old self.new) }
        ensures config { OnOk result (config_of self.new ≡ config_of self.old) }
    {
        are_octets(bytes);
        self.dials = None;
        match self.owner_of(link) {
            Owner::Control => {
                self.stirs = true;
                self.control.take_bytes(link, bytes, &mut self.side)
            }
            Owner::Plain => {
                let room = self.has_room();
                let held = self.control.held();
                self.side
                    .relays
                    .took(link, held, room, bytes, &mut self.side.notes)
            }
            Owner::Inbound => {
                let places = self.places();
                let held = self.control.held();
                self.side
                    .links
                    .took(link, held, places, bytes, &mut self.side.notes);
                Ok(())
            }
        }
    }

    /// The link's peer sends no more.
    pub fn ended(&mut self, link: u64)
        ensures tells { Tells Stands shown_of (e.Ended link) self.old self.new }
        ensures config { config_of self.new ≡ config_of self.old }
    {
        self.dials = None;
        match self.owner_of(link) {
            Owner::Control => {
                self.stirs = true;
                self.control.ended(link);
            }
            Owner::Plain => self.side.relays.ended(link, &mut self.side.notes),
            Owner::Inbound => self.side.links.ended(link, &mut self.side.notes),
        }
    }

    /// A call on the link failed.
    pub fn broke(&mut self, link: u64)
        ensures tells { Tells Stands shown_of (e.Broke link) self.old self.new }
        ensures config { config_of self.new ≡ config_of self.old }
    {
        self.dials = None;
        match self.owner_of(link) {
            Owner::Control => {
                self.stirs = true;
                self.control.broke(link);
            }
            Owner::Plain => self.side.relays.broke(link, &mut self.side.notes),
            Owner::Inbound => self.side.links.broke(link, &mut self.side.notes),
        }
    }

    /// Time passed. No shut and no close is due for that.
    pub fn tick(&mut self)
        ensures tells { Tells Stands shown_of e.Tick self.old self.new }
        ensures closes { (shown_of self.new).none_closes ≡ (shown_of self.old).none_closes }
        ensures config { config_of self.new ≡ config_of self.old }
    {
        self.dials = None;
        self.stirs = true;
        self.control.tick();
    }

    /// Bytes that are to be written on the link now: the first of them, and as many more as lie in one piece.
    pub fn output(&self, link: u64) -> &[u8]
        ensures { IsFront result.now ((shown_of self.now).output link) }
    {
        match self.owner_of(link) {
            Owner::Control => self.control.output(link),
            Owner::Plain => self.side.relays.output(link),
            Owner::Inbound => self.side.links.output(link),
        }
    }

    /// So many of the bytes that were to be written on the link are.
    pub fn wrote(&mut self, link: u64, n: usize)
        requires { n ≤ length ((shown_of self.old).output link) }
        ensures tells { Tells Stands shown_of (e.Went link (take n ((shown_of self.old).output link))) self.old self.new }
        ensures config { config_of self.new ≡ config_of self.old }
    {
        self.dials = None;
        match self.owner_of(link) {
            Owner::Control => {
                self.stirs = true;
                self.control.wrote(link, n);
            }
            Owner::Plain => self.side.relays.wrote(link, n, &mut self.side.notes),
            Owner::Inbound => self.side.links.wrote(link, n, &mut self.side.notes),
        }
    }

    /// Whether one write on the link goes before the acts that are due: a GOAWAY waits on it, and its close is due behind that.
    pub fn last_words(&self, link: u64) -> bool
        ensures { result ≡ (shown_of self.now).last_words link }
    {
        match self.owner_of(link) {
            Owner::Control => self.control.last_words(),
            Owner::Plain => self.control.is_idle() & self.side.relays.last_words(link),
            Owner::Inbound => self.control.is_idle() & self.side.links.last_words(link),
        }
    }

    /// The next call that is due. `None` where none is. A shut or a close counts as done; a dial is to be answered next.
    pub fn next_act(&mut self) -> Option<Act>
        ensures acts { Acts Stands shown_of result self.old self.new }
        ensures none { IfNone result ((shown_of self.new).idle ≡ true × (shown_of self.new).none_closes ≡ true) }
        ensures ends_for { (shown_of self.new).ends_for ≡ (shown_of self.old).ends_for }
        ensures closes { ActsFor (shown_of self.old).ends_for result }
        ensures all { IfNone result (IfSome (shown_of self.old).ends_for (λ cause. StandsForNone Stands self.new)) }
        ensures config { config_of self.new ≡ config_of self.old }
    {
        if let Some(act) = self.control.next_act() {
            return self.give(act_of(act));
        }
        if let Some(act) = self.side.links.next_act() {
            return self.give(act);
        }
        match self.side.relays.next_act() {
            Some(act) => self.give(act),
            None => {
                self.dials = None;
                None
            }
        }
    }

    /// The next note. `None` exactly where each was taken.
    ///
    /// Errors: `NoMemory`, behind which the run ends: a note was lost.
    pub fn next_note(&mut self) -> Result<Option<Note>, NoMemory>
        ensures head { IfOk result (λ note. (shown_of self.old).noted ≡ option_to_list note ++ (shown_of self.new).noted) }
        ensures none { IfOk result (λ note. IfNone note ((shown_of self.old).noted ≡ [])) }
        ensures same { IsSame (shown_of self.old) (shown_of self.new) }
        ensures stirs { (l : ℕ) → (shown_of self.new).stirs l ≡ (shown_of self.old).stirs l }
        ensures takes { IfOk result (λ note. (notes : List Note) (trace : List Entry) → Stands notes self.old trace
            → Stands (notes ++ option_to_list note) self.new trace) }
        ensures config { config_of self.new ≡ config_of self.old }
        ensures still { IfOk result (λ note. told self.new.side.notes ≡ Some (shown_of self.new).noted) }
    {
        self.side.notes.next()
    }

    /// The run ends: from now on each act closes a link, for this cause, until none lives.
    pub fn stop(&mut self, cause: Cause)
        ensures ends_for { (shown_of self.new).ends_for ≡ Some cause }
        ensures stands { Stops Stands shown_of self.old self.new }
        ensures config { config_of self.new ≡ config_of self.old }
    {
        self.dials = None;
        self.ends_for = Some(cause);
        self.control.stop(cause);
        self.side.links.stopped(cause, &mut self.side.notes);
        self.side.relays.stopped(cause, &mut self.side.notes);
    }

    /// The next link on which more may be read or is to be written than before. `None` exactly where none stirred that wasn't told.
    pub fn next_stirred(&mut self) -> Option<u64>
        ensures hears { (notes : List Note) (trace : List Entry) → Stands notes self.old trace
            → Stands notes self.new trace × Hears trace result (shown_of self.old) (shown_of self.new) }
        ensures none { IfNone result ((l : ℕ) → (shown_of self.new).stirs l ≡ false) }
        ensures same { IsSame (shown_of self.old) (shown_of self.new) }
        ensures noted { (shown_of self.new).noted ≡ (shown_of self.old).noted }
        ensures config { config_of self.new ≡ config_of self.old }
    {
        if let Some(number) = self.next_own() {
            return Some(number);
        }
        if let Some(number) = self.side.links.next_stirred() {
            return Some(number);
        }
        self.side.relays.next_stirred()
    }
}
