//! What is known of the doors.

ghost use Rattle.std.specs.Prelude.{◌≡◌, if◌then◌else◌, false};
ghost use Rattle.hb_base.specs.declared.door.Door.{Door};
ghost use Rattle.hb_ready.specs.Sight.{asked_at};
ghost use Rattle.hb_world.specs.Trace.{same_door};

use hb_base::Door;

/// The doors at which an accept may give a link: a wait named the door, and no accept gave none there since.
#[derive(Clone, Copy)]
pub struct Asked {
    pub inbound: bool,
    pub outbound: bool,
    pub plain: bool,
}

impl Asked {
    /// No door.
    pub fn new() -> Asked
        ensures { (d : Door) → asked_at result d ≡ false }
    {
        Asked {
            inbound: false,
            outbound: false,
            plain: false,
        }
    }

    /// Whether this door is one of them.
    pub fn at(&self, door: Door) -> bool
        ensures { result ≡ asked_at self.now door }
    {
        match door {
            Door::Inbound => self.inbound,
            Door::Outbound => self.outbound,
            Door::Plain => self.plain,
        }
    }

    /// This door is one of them from now on, or none.
    pub fn set(&mut self, door: Door, asked: bool)
        ensures { (d : Door) → asked_at self.new d ≡ (if same_door door d then asked else asked_at self.old d) }
    {
        match door {
            Door::Inbound => self.inbound = asked,
            Door::Outbound => self.outbound = asked,
            Door::Plain => self.plain = asked,
        }
    }
}
