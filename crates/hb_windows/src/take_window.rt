ghost use Rattle.std.specs.Prelude.{◌≡◌, ◌≤◌, ◌+◌, ◌-◌, IfSome};
ghost use Rattle.hb_windows.specs.Taking.{Takes, PaysBack};
ghost use Rattle.hb_frames.specs.Numbers.{largest};

use crate::overrun::Overrun;
use std::marker::Model;

/// From this many owed octets on they are granted again.
const WORTH_GRANTING: u32 = 32_768;

/// The octets of DATA that a peer may still send on a stream or a connection, and those that came and
/// are to be granted again (RFC 9113 sections 5.2 and 6.9).
#[derive(Drop)]
pub struct TakeWindow {
    granted: u32,
    kept: u32,
    owed: u32,
}

impl Model for TakeWindow {
    ghost use Rattle.std.specs.Prelude.{◌≤◌, ◌+◌};
    ghost use Rattle.hb_windows.specs.Taking.{Taking};
    ghost use Rattle.hb_frames.specs.Numbers.{largest};

    ghost Value = { Taking };

    ghost view = { λ w. record { granted = w.granted; kept = w.kept; owed = w.owed } };

    ghost invariant = { λ w. w.granted + w.kept + w.owed ≤ largest };
}

impl TakeWindow {
    /// A window of which all octets are granted.
    pub fn new(size: u32) -> TakeWindow
        requires { size ≤ largest }
        ensures { result ≡ record { granted = size; kept = 0; owed = 0 } }
    {
        TakeWindow {
            granted: size,
            kept: 0,
            owed: 0,
        }
    }

    /// The octets that came and aren't used up.
    pub fn kept(&self) -> u32
        ensures { result ≡ self.now.kept }
    {
        self.kept
    }

    /// Takes away the octets of a DATA frame that came, its padding included (RFC 9113 section 6.9).
    ///
    /// Errors: an `Overrun` where they exceed what is granted. The window is unchanged then.
    pub fn spend(&mut self, n: u32) -> Result<(), Overrun>
        ensures { Takes self.old self.new result n }
    {
        if n > self.granted {
            return Err(Overrun {
                held: self.granted as i64,
                asked: n as i64,
            });
        }
        self.granted -= n;
        self.kept += n;
        Ok(())
    }

    /// Octets that came are used up, and are owed to the peer.
    pub fn owe(&mut self, n: u32)
        requires { n ≤ self.old.kept }
        ensures { self.new
            ≡ record self.old { kept = self.old.kept - n; owed = self.old.owed + n } }
    {
        self.kept -= n;
        self.owed += n;
    }

    /// The increment that is to be granted now: all that is owed. `None` where that is below 32,768 octets.
    pub fn due(&mut self) -> Option<u32>
        ensures all { PaysBack self.old self.new result }
        ensures in_range { IfSome result (λ n. n ≤ largest) }
    {
        if self.owed < WORTH_GRANTING {
            return None;
        }
        let increment = self.owed;
        self.granted += increment;
        self.owed = 0;
        Some(increment)
    }
}
