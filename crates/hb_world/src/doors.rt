//! What the world of a script keeps of the doors.

ghost use Rattle.std.specs.Prelude.{◌≡◌, if◌then◌else◌};
ghost use Rattle.hb_world.specs.DoorState.{door_at};
ghost use Rattle.hb_world.specs.Trace.{same_door};
ghost use Rattle.hb_base.specs.declared.door.Door.{Door};

use hb_base::Door;

/// What is kept of a door.
#[derive(Clone, Copy)]
pub struct ScriptDoor {
    pub listening: bool,
    /// How many connections wait at it.
    pub waiting: u64,
}

/// Something of each door.
#[derive(Clone, Copy)]
pub struct Doors<T> {
    pub inbound: T,
    pub outbound: T,
    pub plain: T,
}

impl<T: Copy> Doors<T> {
    /// The same of each door.
    pub fn new(each: T) -> Doors<T>
        ensures { (d : Door) → door_at result d ≡ each }
    {
        Doors {
            inbound: each,
            outbound: each,
            plain: each,
        }
    }

    /// What is kept of this door.
    pub fn at(&self, door: Door) -> T
        ensures { result ≡ door_at self.now door }
    {
        match door {
            Door::Inbound => self.inbound,
            Door::Outbound => self.outbound,
            Door::Plain => self.plain,
        }
    }

    /// Keeps this of a door, in place of what was kept.
    pub fn set(&mut self, door: Door, now: T)
        ensures { (d : Door) → door_at self.new d ≡ (if same_door door d then now else door_at self.old d) }
    {
        match door {
            Door::Inbound => self.inbound = now,
            Door::Outbound => self.outbound = now,
            Door::Plain => self.plain = now,
        }
    }
}
