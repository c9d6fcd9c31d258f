//! The node's own doors.

ghost use Rattle.std.specs.Prelude.{◌≡◌};
ghost use Rattle.hb_held.specs.Held.{no_doors};

use hb_base::Target;

/// Where each door of the node listens; `None`: it has no such door. Who reaches one is believed who a connection comes from, so no
/// tunnel leads there.
#[derive(Clone, Copy)]
pub struct OwnDoors {
    pub inbound: Option<Target>,
    pub outbound: Option<Target>,
    pub plain: Option<Target>,
}

impl OwnDoors {
    /// No door.
    pub fn none() -> OwnDoors
        ensures { result ≡ no_doors }
    {
        OwnDoors {
            inbound: None,
            outbound: None,
            plain: None,
        }
    }
}
