//! Frames taken one after another until something is told.

ghost use Rattle.std.specs.Prelude.{◌≡◌, false, IfOk, OnErr};
ghost use Rattle.hb_conn.specs.Receiving.{pauses, StepsOn, Receives, LeavesLess, LacksBlock};

use crate::found::Found;
use crate::glance::{Glance, next_glance};
use crate::machine::Core;
use hb_base::NoMemory;
use hb_frames::FrameReader;

/// The least room of the output that every answer to one frame fits.
const LEAST_ROOM: usize = 256;

/// The frames that come, and what they are answered from.
#[derive(Drop)]
pub struct Receiver {
    pub reader: FrameReader,
    pub core: Core,
}

impl Core {
    pub(crate) fn pauses(&self) -> bool
        ensures { result ≡ pauses self.now }
    {
        self.over || self.out.room() < LEAST_ROOM
    }
}

impl Receiver {
    /// Looks at the frame in front.
    fn step(&mut self) -> Result<Option<Found>, NoMemory>
        requires { pauses self.old.core ≡ false }
        ensures steps { IfOk result (StepsOn self.old self.new) }
        ensures lacks { OnErr result (LacksBlock self.old) }
    {
        let glance = next_glance(&mut self.reader);
        if let Glance::Nothing = glance {
            return Ok(None);
        }
        let found = self.core.handle(glance, self.reader.last_bytes())?;
        Ok(Some(found))
    }

    /// Looks at frame after frame until something is told; `Silent` where nothing more can be.
    pub(crate) fn receive(&mut self) -> Result<Found, NoMemory>
        ensures all { IfOk result (Receives self.old self.new) }
        ensures falls { IfOk result (LeavesLess self.old self.new) }
        ensures lacks { OnErr result (LacksBlock self.old) }
    {
        while !self.core.pauses() {
            let Some(found) = self.step()? else {
                return Ok(Found::Silent);
            };
            if !found.is_silent() {
                return Ok(found);
            }
        }
        Ok(Found::Silent)
    }
}
