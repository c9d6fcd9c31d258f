//! What a way depends on beside what is held.

ghost use Rattle.std.specs.Prelude.{◌≡◌, OnOk, OnErr, None};
ghost use Rattle.std.specs.FinMap.{empty};
ghost use Rattle.hb_captured.specs.Counts.{recounted};
ghost use Rattle.hb_captured.specs.Answer.{endpoint_of};
ghost use Rattle.hb_relay.specs.Answering.{aim_as, routing_of};

use crate::aim::Aim;
use hb_base::NoMemory;
use hb_route::Opens;
use std::alloc::Global;

/// How many connections each endpoint has open, and the port of gateways.
#[derive(Drop)]
pub struct Routes {
    pub(crate) opens: Opens,
    pub(crate) hbone_port: u16,
}

impl Routes {
    /// No connection is open.
    pub fn new(alloc: Global, hbone_port: u16) -> Routes
        ensures { routing_of result ≡ record { opens = empty; hbone_port = hbone_port } }
    {
        Routes {
            opens: Opens::new(alloc),
            hbone_port,
        }
    }

    /// One more connection is open, to the endpoint of an aim that has one.
    ///
    /// Errors: `NoMemory`, and then nothing changes.
    pub(crate) fn count(&mut self, aim: &Aim) -> Result<(), NoMemory>
        ensures ok { OnOk result (self.new
            ≡ record self.old { opens = recounted None (endpoint_of (aim_as aim.now)) self.old.opens }) }
        ensures err { OnErr result (self.new ≡ self.old) }
    {
        match aim.endpoint() {
            Some(name) => self.opens.add(name),
            None => Ok(()),
        }
    }

    /// One fewer is.
    pub(crate) fn uncount(&mut self, aim: &Aim)
        ensures { self.new ≡ record self.old { opens = recounted (endpoint_of (aim_as aim.now)) None self.old.opens } }
    {
        if let Some(name) = aim.endpoint() {
            self.opens.drop_one(name);
        }
    }

    /// No connection is open any more: the run ends.
    pub fn forget(&mut self, alloc: Global)
        ensures { self.new ≡ record self.old { opens = empty } }
    {
        self.opens = Opens::new(alloc);
    }
}
