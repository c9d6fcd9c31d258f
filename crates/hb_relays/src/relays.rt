//! All plain links.

ghost use Rattle.std.specs.Prelude.{true, ◌≡◌, ◌&&◌, OnOk};
ghost use Rattle.hb_model.specs.declared.config.NodeConfig.{NodeConfig};
ghost use Rattle.hb_proxy.specs.Machine.{fresh, outward};
ghost use Rattle.hb_relays.specs.Calls.{Begins, TurnsAway, count_of, gate_count};
ghost use Rattle.hb_relays.specs.Shows.{ShowsRelays};
ghost use Rattle.hb_relays.specs.Stirring.{Stirs};
ghost use Rattle.hb_relays.specs.Touched.{is_idle};
ghost use Rattle.hb_relays.specs.Walks.{touched_at, gate_touched_at};

use crate::touched::Touched;
use hb_base::{Door, NoMemory};
use hb_gate::Gate;
use hb_map::ById;
use hb_relay::{Relay, Routes};
use std::alloc::Global;

/// The plain links of a node.
#[derive(Drop)]
pub struct Relays {
    pub(crate) alloc: Global,
    pub(crate) relays: ById<u64, Relay>,
    /// Of each upstream that isn't closed, which link it is of.
    pub(crate) ups: ById<u64, u64>,
    /// These links may have an act due.
    pub(crate) due: Touched,
    /// Of these links, or of their upstreams, more may be read, or is to be written, than when they were told last.
    pub(crate) stirs: Touched,
    /// So it is of the upstream of this link, which was told itself.
    pub(crate) left: Option<u64>,
    /// How many connections each endpoint has open, and the port of gateways.
    pub(crate) routes: Routes,
    /// The links to gateways.
    pub(crate) gates: ById<u64, Gate>,
    /// These links to gateways may have an act due.
    pub(crate) gate_due: Touched,
    /// Of these more may be read, or is to be written, than when they were told last.
    pub(crate) gate_stirs: Touched,
}

impl Relays {
    /// None: before each link's birth.
    pub fn new(alloc: Global, hbone_port: u16) -> Relays
        ensures shows { (g : NodeConfig) → g.hbone_port ≡ hbone_port → ShowsRelays g result (outward (fresh g)) }
        ensures idle { is_idle result.due ≡ true }
        ensures gate_idle { is_idle result.gate_due ≡ true }
    {
        Relays {
            alloc,
            relays: ById::new(alloc),
            ups: ById::new(alloc),
            due: Touched::new(),
            stirs: Touched::new(),
            left: None,
            routes: Routes::new(alloc, hbone_port),
            gates: ById::new(alloc),
            gate_due: Touched::new(),
            gate_stirs: Touched::new(),
        }
    }

    /// This link was told something: it may have an act due from now on, and it and its upstream are to be told.
    pub(crate) fn touch(&mut self, link: u64)
        ensures { self.new ≡ touched_at link self.old }
    {
        self.due.touch(link);
        self.stirs.touch(link);
    }

    /// So was this link to a gateway.
    pub(crate) fn touch_gate(&mut self, gate: u64)
        ensures { self.new ≡ gate_touched_at gate self.old }
    {
        self.gate_due.touch(gate);
        self.gate_stirs.touch(gate);
    }

    /// No link has an act due.
    pub fn is_idle(&self) -> bool
        ensures { result ≡ (is_idle self.now.due && is_idle self.now.gate_due) }
    {
        self.due.is_idle() && self.gate_due.is_idle()
    }

    /// A link was accepted at a door.
    ///
    /// Errors: `NoMemory`, behind which the run ends.
    pub fn accepted(&mut self, door: Door, number: u64) -> Result<(), NoMemory>
        ensures meets { OnOk result (Begins door number self.old self.new) }
        ensures stirs { OnOk result (Stirs self.old self.new) }
    {
        let relay = Relay::accepted(self.alloc, door, number)?;
        self.relays.put(number, relay)?;
        self.touch(number);
        Ok(())
    }

    /// A link was accepted at a door where as many are open as may be: it is to be closed for that cause.
    ///
    /// Errors: `NoMemory`, behind which the run ends.
    pub fn turned_away(&mut self, door: Door, number: u64) -> Result<(), NoMemory>
        ensures meets { OnOk result (TurnsAway door number self.old self.new) }
        ensures stirs { OnOk result (Stirs self.old self.new) }
    {
        let relay = Relay::turned_away(self.alloc, door, number)?;
        self.relays.put(number, relay)?;
        self.touch(number);
        Ok(())
    }

    /// How many links to gateways are kept: each from its birth until its close was given.
    pub fn gates(&self) -> usize
        ensures { result ≡ gate_count self.now }
    {
        self.gates.len()
    }

    /// How many plain links are kept: each from its birth until its close was given.
    pub fn len(&self) -> usize
        ensures { result ≡ count_of self.now }
    {
        self.relays.len()
    }
}
